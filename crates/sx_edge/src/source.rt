//! A source of bytes with a count of its faults.
ghost use Rattle.std.specs.Prelude.{◌<◌, List, ℕ, Option, length};
ghost use Rattle.std.specs.Io.{ReadsAtMost};
ghost use Rattle.std.specs.Io.KnownBytes.{ReadConsumes};
ghost use Rattle.sx_spec.specs.Causes.{HasCause};

/// An object of the outside has failed.
#[derive(Clone, Copy, Debug, PartialEq, Eq)]
pub struct Failed;

/// A stream of bytes from outside.
pub trait Source {
    /// The bytes that are left, where the source tells them.
    ghost left: { Self → Option (List ℕ) };

    /// How often it has failed. A call that answers `Ok` leaves the count as it was; one that answers
    /// `Err` raises it, up to 2^64 - 1.
    ghost faults: { Self → ℕ };

    /// Takes the first bytes that are left, at most as many as `buf` has, and gives their number.
    /// `Ok(0)` is the end.
    fn read(&mut self, buf: &mut [u8]) -> Result<usize, Failed>
        requires { 0 < length buf.old }
        ensures bound { ReadsAtMost result buf.new }
        ensures bytes { ReadConsumes (left self.old) (left self.new) result buf.new }
        ensures cause { HasCause (faults self.old) (faults self.new) result };
}
