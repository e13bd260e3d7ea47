//! Bytes out of a line, from any of its bits on. A line goes on with zero bytes.

ghost use Rattle.std.specs.Prelude.{◌≡◌, ℕ, ◌+◌, ◌*◌, ◌/◌, ◌^◌, ◌<◌, ◌≤◌, length, slice_index, EachIndex};
ghost use Rattle.sx_bits.specs.Views.{shifted_byte, window_byte};

/// Byte `i` of the line, or zero where it has ended.
#[inline(always)]
pub(crate) fn byte_or_zero(line: &[u8], i: usize) -> u8
    ensures { result ≡ slice_index line.now i }
{
    if i < line.len() { line[i] } else { 0 }
}

/// The byte with its lowest `unused` bits cleared.
pub(crate) fn clear_low(byte: u8, unused: u32) -> u8
    requires { unused < 8 }
    ensures { result ≡ byte / 2 ^ unused * 2 ^ unused }
{
    byte >> unused << unused
}

/// Copies the line's bytes from byte `first` on.
pub(crate) fn copy_bytes(line: &[u8], first: usize, out: &mut [u8])
    ensures { EachIndex out.new (λ k. slice_index out.new k ≡ slice_index line.now (first + k)) }
{
    let first = first.min(line.len());
    let have = (line.len() - first).min(out.len());
    out[..have].copy_from_slice(&line[first..first + have]);
    out[have..].fill(0);
}

/// Copies bytes that begin `shift` bits behind the start of the line's byte `first`.
fn shift_bytes(line: &[u8], first: usize, shift: u32, out: &mut [u8])
    requires few { shift < 8 }
    requires near { first < 65536 }
    requires short { length out.old ≤ 64 }
    ensures { EachIndex out.new (λ k. slice_index out.new k
        ≡ shifted_byte (slice_index line.now (first + k)) (slice_index line.now (first + k + 1)) shift) }
{
    let mut high = byte_or_zero(line, first);
    for i in 0..out.len() {
        let low = byte_or_zero(line, first + i + 1);
        let both = u16::from(high) << 8 | u16::from(low);
        out[i] = (both >> (8 - shift) & 0xff) as u8;
        high = low;
    }
}

/// Copies bytes that begin at the line's bit `start`.
pub(crate) fn copy_window(line: &[u8], start: u32, out: &mut [u8])
    requires near { start ≤ 65536 }
    requires short { length out.old ≤ 64 }
    ensures window { EachIndex out.new (λ k. slice_index out.new k ≡ window_byte line.now start k) }
    ensures bytes { (i : ℕ) → slice_index line.now i < 256 }
{
    let first = (start / 8) as usize;
    if start % 8 == 0 {
        copy_bytes(line, first, out);
    } else {
        shift_bytes(line, first, start % 8, out);
    }
}
