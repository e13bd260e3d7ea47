//! Bytes copied from one place to another.
ghost use Rattle.std.specs.Prelude.{◌≡◌, ◌+◌, ◌-◌, ◌≤◌, ◌++◌, length, take, drop, min};

/// Copies the bytes from the place on to the front of the buffer, as many as both have, and gives
/// their number.
pub(crate) fn copy_front(bytes: &[u8], at: usize, buf: &mut [u8]) -> usize
    requires { at ≤ length bytes.now }
    ensures count { result ≡ min (length bytes.now - at) (length buf.old) }
    ensures bytes { drop at bytes.now ≡ take result buf.new ++ drop (at + result) bytes.now }
{
    let count = (bytes.len() - at).min(buf.len());
    buf[..count].copy_from_slice(&bytes[at..at + count]);
    count
}

/// Writes the bytes behind the first `len` of the buffer.
pub(crate) fn put_behind(buf: &mut [u8], len: usize, bytes: &[u8])
    requires { len + length bytes.now ≤ length buf.old }
    ensures { take (len + length bytes.now) buf.new ≡ take len buf.old ++ bytes.now }
{
    buf[len..len + bytes.len()].copy_from_slice(bytes);
}
