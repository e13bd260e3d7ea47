//! Bit strings that borrow the bytes of a line.

ghost use Rattle.std.specs.Prelude.{◌≡◌, ℕ, ◌+◌, ◌*◌, ◌≤◌, length};

use crate::packing::{byte_or_zero, clear_low, copy_window};
use crate::words::word_at;
use std::cmp::Ordering;

/// How many bits a piece of a view has at most.
const PIECE: u32 = 512;

/// A bit string: the bits `from` up to before `to` of the bytes of a line, which one zero byte
/// follows. In each byte the highest bit is the first.
#[derive(Clone, Copy)]
pub struct BitView<'a> {
    line: &'a [u8],
    from: u32,
    to: u32,
    ghost short: { length line.now ≤ 8191 },
    ghost ordered: { from ≤ to },
    ghost within: { to ≤ 8 * (length line.now + 1) },
}

impl<'a> BitView<'a> {
    ghost use Rattle.std.specs.Prelude.{◌==◌, ◌-◌, ◌<◌, take, drop, min};
    ghost use Rattle.std.specs.Int.{div_ceil, bit_at as number_bit};
    ghost use Rattle.sx_spec_strings.specs.Bits.{bit_at, bits_cmp, common_prefix, key_bits, packed_bytes};
    ghost use Rattle.sx_bits.specs.Views.{bits_of};

    /// The bits of a line's bytes, and then eight zero bits. The line has at most 8,191 bytes.
    pub fn key_bits(line: &'a [u8]) -> BitView<'a>
        requires { length line.now ≤ 8191 }
        ensures { bits_of result ≡ key_bits line.now }
    {
        BitView {
            line,
            from: 0,
            to: 8 * (line.len() as u32 + 1),
        }
    }

    /// How many bits the string has.
    #[inline(always)]
    pub fn len(&self) -> u32
        ensures value { result ≡ length (bits_of self.now) }
        ensures bound { result ≤ 65536 }
    {
        self.to - self.from
    }

    /// Bit `i`, counted from 0. `i` is below the length.
    #[inline(always)]
    pub fn bit(&self, i: u32) -> bool
        requires { i < length (bits_of self.now) }
        ensures { result ≡ bit_at (bits_of self.now) i }
    {
        let place = self.from + i;
        byte_or_zero(self.line, (place / 8) as usize) >> (7 - place % 8) & 1 == 1
    }

    /// Packs the next bits from bit `from` on into the front of `buf`, at most 512, highest first,
    /// and answers how many bytes these are. The last of them is padded with zero bits; what `buf`
    /// holds behind them is free. `from` is at most the length.
    pub fn fill(&self, from: u32, buf: &mut [u8; 64]) -> usize
        requires { from ≤ length (bits_of self.now) }
        ensures packed { take result buf.new
            ≡ packed_bytes (take 512 (drop from (bits_of self.now))) }
        ensures count { result ≡ div_ceil (min 512 (length (bits_of self.now) - from)) 8 }
        ensures bound { result ≤ 64 }
    {
        let start = self.from + from;
        let count = (self.to - start).min(PIECE);
        let used = count.div_ceil(8) as usize;
        copy_window(self.line, start, &mut buf[..used]);
        if count % 8 > 0 {
            buf[used - 1] = clear_low(buf[used - 1], 8 - count % 8);
        }
        used
    }

    /// The first `n` bits. `n` is at most the length.
    #[inline(always)]
    pub fn prefix(&self, n: u32) -> BitView<'a>
        requires { n ≤ length (bits_of self.now) }
        ensures { bits_of result ≡ take n (bits_of self.now) }
    {
        self.range(0, n)
    }

    /// The bits from bit `from` up to before bit `to`, which is at most the length.
    #[inline(always)]
    pub fn range(&self, from: u32, to: u32) -> BitView<'a>
        requires ordered { from ≤ to }
        requires within { to ≤ length (bits_of self.now) }
        ensures { bits_of result ≡ take (to - from) (drop from (bits_of self.now)) }
    {
        BitView {
            line: self.line,
            from: self.from + from,
            to: self.from + to,
        }
    }

    /// The bits of the line from bit `at` of the string on, 64 of them. `at` is at most the length.
    #[inline(always)]
    fn word(&self, at: u32) -> u64
        requires { at ≤ length (bits_of self.now) }
        ensures { (j : ℕ) → j < 64 → at + j < length (bits_of self.now)
            → (number_bit result (63 - j) == 1) ≡ bit_at (bits_of self.now) (at + j) }
    {
        word_at(self.line, self.from + at)
    }

    /// The length of the longest common prefix.
    pub fn lcp(&self, other: &BitView<'_>) -> u32
        ensures value { result ≡ length (common_prefix (bits_of self.now) (bits_of other.now)) }
        ensures bound { result ≤ 65536 }
    {
        let most = self.len().min(other.len());
        let mut at = 0;
        while at < most {
            let apart = self.word(at) ^ other.word(at);
            if apart != 0 {
                return (at + apart.leading_zeros()).min(most);
            }
            at += 64;
        }
        most
    }

    /// The lexicographic order, where a proper prefix is below.
    pub fn order(&self, other: &BitView<'_>) -> Ordering
        ensures { result ≡ bits_cmp (bits_of self.now) (bits_of other.now) }
    {
        let common = self.lcp(other);
        if common < self.len().min(other.len()) {
            // the first bits that differ
            if other.bit(common) {
                return Ordering::Less;
            }
            return Ordering::Greater;
        }
        self.len().cmp(&other.len())
    }
}
