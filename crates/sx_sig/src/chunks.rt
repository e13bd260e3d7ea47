//! Where signatures fall: chunks, segments of cells, and places.

ghost use Rattle.std.specs.Prelude.{◌≡◌, ◌+◌, ◌-◌, ◌*◌, ◌/◌, ◌^◌, ◌<◌, ◌≤◌};
ghost use Rattle.sx_spec.specs.Chunks.{segment as segment_of, mix as mix_of, offset as offset_of, places as places_of, chunk_of as chunk_of_signature, chunk_bits as chunk_bits_of};
ghost use Rattle.sx_spec.specs.Reply.{top_bits as top_bits_of};

use sx_spec::{Edge, Method, Signature};

/// The increment of SplitMix64.
const INCREMENT: u64 = 0x9E37_79B9_7F4A_7C15;

/// How many bits number the chunks of so many pairs: the least count by which a chunk has at most
/// 1,024 of them on average. At most 22.
pub fn chunk_bits(pairs: u32) -> u32
    ensures value { result ≡ chunk_bits_of pairs }
    ensures bound { result ≤ 22 }
{
    32 - (pairs.saturating_sub(1) >> 10).leading_zeros()
}

/// The first `width` bits of a word, as a number.
#[inline(always)]
pub(crate) fn first_bits_of(word: u64, width: u32) -> u64
    requires { width ≤ 64 }
    ensures value { result ≡ word / 2 ^ (64 - width) }
    ensures below { result < 2 ^ width }
{
    if width == 0 {
        return 0;
    }
    word >> (64 - width)
}

/// The chunk of a signature among 2 to the power `c`, which is at most 32.
#[inline(always)]
pub fn chunk_of(sig: &Signature, c: u32) -> u32
    requires { c ≤ 32 }
    ensures { result ≡ chunk_of_signature sig.now c }
{
    first_bits_of(sig.w0, c) as u32
}

/// How many cells each of the three segments of a chunk of so many pairs has.
#[inline(always)]
pub fn segment(method: Method, pairs: u32) -> u32
    ensures { result ≡ segment_of method pairs }
{
    if pairs == 0 {
        return 0;
    }
    match method {
        Method::Mwhc => (41 * u64::from(pairs) / 100 + 2) as u32,
        Method::Gov3 => (11 * u64::from(pairs) / 30 + 2) as u32,
    }
}

/// The output function of SplitMix64.
#[inline(always)]
#[tactic(auto, unfolding(sx_spec::specs::Chunks::mix))]
fn mix(z: u64) -> u64
    ensures { result ≡ mix_of z }
{
    let x = (z ^ (z >> 30)).wrapping_mul(0xBF58_476D_1CE4_E5B9);
    let y = (x ^ (x >> 27)).wrapping_mul(0x94D0_49BB_1331_11EB);
    y ^ (y >> 31)
}

/// Where a word falls in a segment of `s` cells, at try `t`.
#[inline(always)]
fn offset(word: u64, t: u32, s: u32) -> u32
    requires few { t ≤ 63 }
    requires some { 1 ≤ s }
    ensures value { result ≡ offset_of word t s }
    ensures within { result < s }
{
    let turned = word.wrapping_add((u64::from(t) + 1).wrapping_mul(INCREMENT));
    ((u128::from(mix(turned)) * u128::from(s)) >> 64) as u32
}

/// The three places of a signature at try `t`, at most 63, one in each of three segments of `s`
/// cells, where `s` is from 1 to 1,431,655,765.
#[inline(always)]
pub fn places(sig: &Signature, t: u32, s: u32) -> Edge
    requires few { t ≤ 63 }
    requires some { 1 ≤ s }
    requires short { s ≤ 1431655765 }
    ensures value { result ≡ places_of sig.now t s }
    ensures first { result.a < s }
    ensures second { (s ≤ result.b) × (result.b < 2 * s) }
    ensures third { (2 * s ≤ result.c) × (result.c < 3 * s) }
{
    Edge {
        a: offset(sig.w0, t, s),
        b: s + offset(sig.w1, t, s),
        c: 2 * s + offset(sig.w2, t, s),
    }
}

/// The first `width` bits of the signature's last word, as a number. `width` is at most 64.
#[inline(always)]
pub fn top_bits(sig: &Signature, width: u32) -> u64
    requires { width ≤ 64 }
    ensures { result ≡ top_bits_of width sig.now }
{
    first_bits_of(sig.w2, width)
}
