//! The dump's file.
ghost use Rattle.std.specs.Prelude.{◌≡◌, OnOk, OnErr};
ghost use Rattle.sx_edge.specs.Shelf.{idle};
ghost use Rattle.sx_spec.specs.Causes.{HasCause};
ghost use Rattle.sx_spec.specs.Layout.{words_bytes};
ghost use Rattle.sx_spec.specs.World.{SetsFile};
ghost use Rattle.sx_cli.specs.Writing.{SetsPart};

use sx_bytes::put_words;
use sx_edge::shelf::Shelf;
use sx_edge::source::Failed;

/// Makes the file and writes the words. Where the shelf fails, the file may hold a prefix of their
/// bytes; every other file is as it was, and no file is left in use.
pub fn write_dump<F: Shelf>(files: &mut F, name: &str, words: &[u64]) -> Result<(), Failed>
    requires { F.in_use files.old ≡ idle }
    ensures ok { OnOk result
        (SetsFile name.now (words_bytes words.now) (F.files files.old) (F.files files.new)) }
    ensures failed { OnErr result
        (SetsPart name.now (words_bytes words.now) (F.files files.old) (F.files files.new)) }
    ensures closed { F.in_use files.new ≡ idle }
    ensures cause { HasCause (F.faults files.old) (F.faults files.new) result }
{
    files.create(name)?;
    let written = put_words(files, words);
    let closed = files.close();
    written?;
    closed
}
