//! A shelf of files by name, of which at most one is in use, with a count of its faults.
ghost use Rattle.std.specs.Prelude.{◌≡◌, ◌≢◌, ◌+◌, ◌^◌, ◌<◌, ◌≤◌, ◌⊎◌, List, [], ℕ, Bool, true, false, Option, Some, Ok, Err, length, take, IfOk, OnOk, OnErr, IsSome};
ghost use Rattle.std.specs.Io.{ReadsAtMost};
ghost use Rattle.std.specs.Io.KnownBytes.{Consumes, IsAtEnd, ReadConsumes};
ghost use Rattle.sx_spec.specs.Causes.{HasCause};
ghost use Rattle.sx_spec.specs.Command.{Text};
ghost use Rattle.sx_spec.specs.World.{Files, KeepsFiles, SetsFile};
ghost use Rattle.sx_edge.specs.Shelf.{Use, idle, reading, writing, Opens, IsAbsent, AppendsFile, AppendsFilePrefix};

use crate::line::feed::FromFile;
use crate::line::read_behind;
use crate::source::Failed;

/// Files of the outside. At most one is in use, to be read or to be written.
pub trait Shelf {
    /// Whether no file is in use, one is being read or one is being written.
    ghost in_use: { Self → Use };

    /// The files, where the shelf tells them.
    ghost files: { Self → Option Files };

    /// The bytes that are left of the file being read, where the shelf tells them.
    ghost rest: { Self → Option (List ℕ) };

    /// The name of the file being written, where the shelf tells it.
    ghost writing_to: { Self → Option Text };

    /// How often it has failed. A call that answers `Ok` leaves the count as it was; one that answers
    /// `Err` raises it, up to 2^64 - 1.
    ghost faults: { Self → ℕ };

    /// Opens the file to be read from its start. False where no file has the name, which is an
    /// answer and no fault: the count stays.
    fn open_file(&mut self, name: &str) -> Result<bool, Failed>
        requires { in_use self.old ≡ idle }
        ensures found { result ≡ Ok true → (in_use self.new ≡ reading)
            × Opens name.now (files self.old) (rest self.new) }
        ensures absent { result ≡ Ok false → (in_use self.new ≡ idle)
            × IsAbsent name.now (files self.old) }
        ensures failed { OnErr result (in_use self.new ≡ idle) }
        ensures files { KeepsFiles (files self.old) (files self.new) }
        ensures cause { HasCause (faults self.old) (faults self.new) result };

    /// Takes the next bytes of the file being read, and gives their number. `Ok(0)` is its end.
    fn read(&mut self, buf: &mut [u8]) -> Result<usize, Failed>
        requires reading { in_use self.old ≡ reading }
        requires room { 0 < length buf.old }
        ensures bound { ReadsAtMost result buf.new }
        ensures bytes { ReadConsumes (rest self.old) (rest self.new) result buf.new }
        ensures stays { in_use self.new ≡ reading }
        ensures files { KeepsFiles (files self.old) (files self.new) }
        ensures cause { HasCause (faults self.old) (faults self.new) result };

    /// Makes the file empty, also where none was there, and opens it to be written.
    fn create(&mut self, name: &str) -> Result<(), Failed>
        requires { in_use self.old ≡ idle }
        ensures made { OnOk result ((in_use self.new ≡ writing)
            × SetsFile name.now [] (files self.old) (files self.new)) }
        ensures named { OnOk result
            (IsSome (files self.old) → writing_to self.new ≡ Some name.now) }
        ensures failed { OnErr result ((in_use self.new ≡ idle)
            × (KeepsFiles (files self.old) (files self.new) ⊎ SetsFile name.now [] (files self.old) (files self.new))) }
        ensures cause { HasCause (faults self.old) (faults self.new) result };

    /// Appends the first bytes of `buf`, at least one, to the file being written, and gives their
    /// number.
    fn write(&mut self, buf: &[u8]) -> Result<usize, Failed>
        requires writing { in_use self.old ≡ writing }
        requires some { 0 < length buf.now }
        ensures bound { IfOk result (λ count. (1 ≤ count) × (count ≤ length buf.now)) }
        ensures bytes { IfOk result (λ count. AppendsFile (writing_to self.old) (files self.old)
            (files self.new) (take count buf.now)) }
        ensures failed { OnErr result (KeepsFiles (files self.old) (files self.new)) }
        ensures stays { in_use self.new ≡ writing }
        ensures same { writing_to self.new ≡ writing_to self.old }
        ensures cause { HasCause (faults self.old) (faults self.new) result };

    /// Lets the file in use go.
    fn close(&mut self) -> Result<(), Failed>
        requires { in_use self.old ≢ idle }
        ensures idle { in_use self.new ≡ idle }
        ensures files { KeepsFiles (files self.old) (files self.new) }
        ensures cause { HasCause (faults self.old) (faults self.new) result };
}

/// Appends all the bytes to the file being written. Where the shelf fails, a prefix was appended.
pub fn write_file<F: Shelf>(files: &mut F, bytes: &[u8]) -> Result<(), Failed>
    requires { F.in_use files.old ≡ writing }
    ensures ok { OnOk result (AppendsFile (F.writing_to files.old) (F.files files.old)
        (F.files files.new) bytes.now) }
    ensures failed { OnErr result (AppendsFilePrefix (F.writing_to files.old) (F.files files.old)
        (F.files files.new) bytes.now) }
    ensures stays { F.in_use files.new ≡ writing }
    ensures same { F.writing_to files.new ≡ F.writing_to files.old }
    ensures cause { HasCause (F.faults files.old) (F.faults files.new) result }
{
    let mut rest = bytes;
    while !rest.is_empty() {
        let count = files.write(rest)?;
        rest = &rest[count..];
    }
    Ok(())
}

/// Fills the buffer from the file being read as far as the file goes, and gives the number of
/// bytes. They are fewer than the buffer has only where the file has no more.
pub fn fill_buffer<F: Shelf>(files: &mut F, buf: &mut [u8]) -> Result<usize, Failed>
    requires { F.in_use files.old ≡ reading }
    ensures bound { IfOk result (λ count. count ≤ length buf.new) }
    ensures taken { IfOk result (λ count.
        Consumes (F.rest files.old) (F.rest files.new) (take count buf.new)) }
    ensures end { IfOk result (λ count. count < length buf.new → IsAtEnd (F.rest files.new)) }
    ensures stays { F.in_use files.new ≡ reading }
    ensures files { KeepsFiles (F.files files.old) (F.files files.new) }
    ensures cause { HasCause (F.faults files.old) (F.faults files.new) result }
{
    let mut len = 0;
    'reads: while len < buf.len() {
        let count = read_behind::<FromFile, F>(files, buf, len)?;
        if count == 0 {
            return Ok(len);
        }
        len += count;
    }
    Ok(len)
}
