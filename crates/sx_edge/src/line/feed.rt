//! What a line reader takes its bytes from: a source, or the file that a shelf reads.
ghost use Rattle.std.specs.Prelude.{◌≡◌, ◌<◌, List, ℕ, Option, length};
ghost use Rattle.std.specs.Io.{ReadsAtMost};
ghost use Rattle.std.specs.Io.KnownBytes.{ReadConsumes};
ghost use Rattle.sx_spec.specs.Causes.{HasCause};

use crate::shelf::Shelf;
use crate::source::{Failed, Source};

/// How bytes are read from a `T`.
pub(crate) trait Feed<T> {
    /// It may be read.
    ghost may_read: { T → Type 0 };

    /// The bytes that are left, where it tells them.
    ghost left: { T → Option (List ℕ) };

    /// How often it has failed.
    ghost faults: { T → ℕ };

    /// What reads leave as it was.
    ghost keeps: { T → T → Type 0 };

    /// As `read` of `Source`.
    fn read(from: &mut T, buf: &mut [u8]) -> Result<usize, Failed>
        requires may_read { may_read from.old }
        requires room { 0 < length buf.old }
        ensures bound { ReadsAtMost result buf.new }
        ensures bytes { ReadConsumes (left from.old) (left from.new) result buf.new }
        ensures stays { may_read from.new }
        ensures keeps { keeps from.old from.new }
        ensures cause { HasCause (faults from.old) (faults from.new) result };

    ghost keeps_itself: { (x : T) → keeps x x };

    ghost keeps_on: { (x y z : T) → keeps x y → keeps y z → keeps x z };
}

/// Bytes of a source.
pub(crate) struct FromSource;

impl<S: Source> Feed<S> for FromSource {
    ghost use Rattle.std.specs.Prelude.{⊤};

    ghost may_read = { λ _. ⊤ };

    ghost left = { λ s. S.left s };

    ghost faults = { λ s. S.faults s };

    ghost keeps = { λ _ _. ⊤ };

    fn read(from: &mut S, buf: &mut [u8]) -> Result<usize, Failed> {
        from.read(buf)
    }

    ghost keeps_itself = { λ _. tt };

    ghost keeps_on = { λ _ _ _ _ _. tt };
}

/// Bytes of the file that a shelf reads.
pub(crate) struct FromFile;

impl<F: Shelf> Feed<F> for FromFile {
    ghost use Rattle.sx_spec.specs.World.{KeepsFiles};
    ghost use Rattle.sx_edge.specs.Shelf.{reading};
    ghost use Rattle.sx_edge.specs.Kept.{KeepsFiles-refl, KeepsFiles-trans};

    ghost may_read = { λ f. F.in_use f ≡ reading };

    ghost left = { λ f. F.rest f };

    ghost faults = { λ f. F.faults f };

    ghost keeps = { λ x y. KeepsFiles (F.files x) (F.files y) };

    fn read(from: &mut F, buf: &mut [u8]) -> Result<usize, Failed> {
        from.read(buf)
    }

    ghost keeps_itself = { λ x. KeepsFiles-refl (F.files x) };

    ghost keeps_on = { λ x y z. KeepsFiles-trans (F.files x) (F.files y) (F.files z) };
}
