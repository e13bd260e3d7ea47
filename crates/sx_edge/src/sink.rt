//! A sink of bytes with a count of its faults.
ghost use Rattle.std.specs.Prelude.{◌<◌, ◌≤◌, List, ℕ, Option, length, take, IfOk, OnOk, OnErr};
ghost use Rattle.std.specs.Io.KnownBytes.{Appends, Keeps};
ghost use Rattle.sx_spec.specs.Causes.{HasCause};
ghost use Rattle.sx_edge.specs.Parts.{AppendsPrefix};

use crate::source::Failed;

/// A stream of bytes to the outside.
pub trait Sink {
    /// The bytes written, where the sink tells them.
    ghost written: { Self → Option (List ℕ) };

    /// How often it has failed. A call that answers `Ok` leaves the count as it was; one that answers
    /// `Err` raises it, up to 2^64 - 1.
    ghost faults: { Self → ℕ };

    /// Writes the first bytes of `buf`, at least one, and gives their number.
    fn write(&mut self, buf: &[u8]) -> Result<usize, Failed>
        requires { 0 < length buf.now }
        ensures bound { IfOk result (λ count. (1 ≤ count) × (count ≤ length buf.now)) }
        ensures bytes { IfOk result
            (λ count. Appends (written self.old) (written self.new) (take count buf.now)) }
        ensures failed { OnErr result (Keeps (written self.old) (written self.new)) }
        ensures cause { HasCause (faults self.old) (faults self.new) result };
}

/// Writes all the bytes. Where the sink fails, a prefix of them was written.
pub fn write_all<K: Sink>(sink: &mut K, bytes: &[u8]) -> Result<(), Failed>
    ensures ok { OnOk result (Appends (K.written sink.old) (K.written sink.new) bytes.now) }
    ensures failed { OnErr result (AppendsPrefix (K.written sink.old) (K.written sink.new)
        bytes.now) }
    ensures cause { HasCause (K.faults sink.old) (K.faults sink.new) result }
{
    let mut rest = bytes;
    while !rest.is_empty() {
        let count = sink.write(rest)?;
        rest = &rest[count..];
    }
    Ok(())
}
