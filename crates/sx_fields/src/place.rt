//! A field in one word, or across two.
ghost use Rattle.std.specs.Prelude.{◌≡◌, ◌+◌, ◌-◌, ◌*◌, ◌/◌, ◌%◌, ◌<◌, ◌≤◌, ◌^◌, All, bit_xor, length};
ghost use Rattle.sx_spec.specs.Fields.{words_number};

/// The bits of a word from bit `shift` on, as many as `width`.
#[inline]
pub(crate) fn inside(word: u64, shift: u32, width: u32) -> u64
    requires some { 0 < width }
    requires fit { shift + width ≤ 64 }
    ensures { result ≡ word / 2 ^ shift % 2 ^ width }
{
    word >> shift & u64::MAX >> (64 - width)
}

/// As many bits as `width`, of which the lowest are those of `low` from bit `shift` on, and the next are those of `high`.
#[inline]
pub(crate) fn across(low: u64, high: u64, shift: u32, width: u32) -> u64
    requires narrow { width ≤ 64 }
    requires over { 64 < shift + width }
    requires shift { shift < 64 }
    ensures { result ≡ (low / 2 ^ shift + high * 2 ^ (64 - shift)) % 2 ^ width }
{
    (low >> shift | high << (64 - shift)) & u64::MAX >> (64 - width)
}

/// The word with its bits from bit `shift` on turned over where `change` has ones.
#[inline]
fn turn_low(low: u64, change: u64, shift: u32) -> u64
    requires { shift < 64 }
    ensures { result ≡ bit_xor low (change * 2 ^ shift % 2 ^ 64) }
{
    low ^ change << shift
}

/// The next word with its lowest bits turned over where the rest of `change` has ones.
#[inline]
fn turn_high(high: u64, change: u64, shift: u32) -> u64
    requires some { 0 < shift }
    requires shift { shift < 64 }
    ensures { result ≡ bit_xor high (change / 2 ^ (64 - shift)) }
{
    high ^ change >> (64 - shift)
}

/// Makes the field of `width` bits from bit `i * width` on equal to `v`. All other bits stay.
#[inline]
pub(crate) fn put(words: &mut [u64], i: usize, width: u32, v: u64)
    requires narrow { width ≤ 64 }
    requires short { i < 2 ^ 33 }
    requires small { All (λ w. w < 2 ^ 64) words.old }
    requires within { i * width + width ≤ 64 * length words.old }
    requires fits { v < 2 ^ width }
    ensures small { All (λ w. w < 2 ^ 64) words.new }
    ensures change { let at = i * width in
        words_number words.new + words_number words.old / 2 ^ at % 2 ^ width * 2 ^ at ≡ words_number words.old + v * 2 ^ at }
{
    if width == 0 {
        return;
    }
    let at = i * width as usize;
    let word = at / 64;
    let shift = (at % 64) as u32;
    let low = words[word];
    if shift + width <= 64 {
        words[word] = turn_low(low, inside(low, shift, width) ^ v, shift);
        return;
    }
    let high = words[word + 1];
    let change = across(low, high, shift, width) ^ v;
    words[word] = turn_low(low, change, shift);
    words[word + 1] = turn_high(high, change, shift);
}
