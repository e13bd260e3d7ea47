//! Reads and writes that are made again where the system interrupts them.
ghost use Rattle.std.specs.Prelude.{◌<◌, ◌≤◌, length, IfOk};
ghost use Rattle.std.specs.Io.{ReadsAtMost};
ghost use Rattle.std.specs.Io.KnownBytes.{ReadConsumes, WriteAppends};

use std::io::{ErrorKind, Read, Write};
use sx_edge::source::Failed;

/// How often a call is made at most, where each is interrupted.
pub const TRIES: u32 = 100;

/// Reads once. A call that is interrupted is made again, up to `TRIES` calls in all.
pub fn read_some<R: Read>(stream: &mut R, buf: &mut [u8]) -> Result<usize, Failed>
    ensures bound { ReadsAtMost result buf.new }
    ensures bytes { ReadConsumes (R.remaining stream.old) (R.remaining stream.new) result buf.new }
{
    for _ in 0..TRIES {
        match stream.read(buf) {
            Ok(count) => return Ok(count),
            Err(e) if e.kind() == ErrorKind::Interrupted => {}
            Err(_) => return Err(Failed),
        }
    }
    Err(Failed)
}

/// Writes once. A call that is interrupted is made again, up to `TRIES` calls in all. A write that
/// takes nothing is a fault, since it would be tried forever.
pub fn write_some<W: Write>(stream: &mut W, buf: &[u8]) -> Result<usize, Failed>
    ensures bound { IfOk result (λ count. (1 ≤ count) × (count ≤ length buf.now)) }
    ensures bytes { WriteAppends (W.contents stream.old) (W.contents stream.new) result buf.now }
{
    for _ in 0..TRIES {
        match stream.write(buf) {
            Ok(0) => return Err(Failed),
            Ok(count) => return Ok(count),
            Err(e) if e.kind() == ErrorKind::Interrupted => {}
            Err(_) => return Err(Failed),
        }
    }
    Err(Failed)
}

#[cfg(test)]
mod tests;
