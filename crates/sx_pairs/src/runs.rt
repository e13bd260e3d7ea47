//! Runs of keys that begin with the same bits: of keys in order, those between two of them do too.

ghost use Rattle.std.specs.Prelude.{◌≡◌, ℕ, ◌<◌, ◌≤◌, true, false, length, take};
ghost use Rattle.sx_spec_strings.specs.Bits.{begins_with};
ghost use Rattle.sx_bits.specs.Views.{bits_of};
ghost use Rattle.sx_pairs.specs.Pairs.{key_at};

use sx_bits::{BitView, KeyList};

/// The bits of key number `i`.
#[inline(always)]
pub(crate) fn key_view<'a>(keys: &'a KeyList, i: u32) -> BitView<'a>
    requires { i < length keys.now.lines }
    ensures { bits_of result ≡ key_at keys.now.lines i }
{
    keys.view(i)
}

/// Whether key number `i` begins with the prefix.
#[inline(always)]
fn begins(keys: &KeyList, i: u32, prefix: &BitView<'_>) -> bool
    requires { i < length keys.now.lines }
    ensures { result ≡ begins_with (key_at keys.now.lines i) (bits_of prefix.now) }
{
    key_view(keys, i).lcp(prefix) == prefix.len()
}

/// The number after the last key that begins with the first `len` bits of key number `at`.
pub(crate) fn end_of_run(keys: &KeyList, at: u32, len: u32) -> u32
    requires inside { at < length keys.now.lines }
    requires short { len ≤ length (key_at keys.now.lines at) }
    ensures above { at < result }
    ensures within { result ≤ length keys.now.lines }
    ensures run { (i : ℕ) → at ≤ i → i < result
        → begins_with (key_at keys.now.lines i) (take len (key_at keys.now.lines at)) ≡ true }
    ensures beyond { (i : ℕ) → result ≤ i → i < length keys.now.lines
        → begins_with (key_at keys.now.lines i) (take len (key_at keys.now.lines at)) ≡ false }
{
    let mut high = keys.len();
    let prefix = key_view(keys, at).prefix(len);
    let mut low = at + 1;
    // how far to leap: twice as far each time, until a key is found that the run doesn't reach
    let mut leap = 0;
    while low < high {
        let over = ((high - low) / 2).min(leap);
        if begins(keys, low + over, &prefix) {
            low += over + 1;
            leap = 2 * over + 1;
        } else {
            high = low + over;
        }
    }
    low
}

/// The first key that begins with the first `len` bits of key number `at`.
pub(crate) fn start_of_run(keys: &KeyList, at: u32, len: u32) -> u32
    requires inside { at < length keys.now.lines }
    requires short { len ≤ length (key_at keys.now.lines at) }
    ensures within { result ≤ at }
    ensures run { (i : ℕ) → result ≤ i → i ≤ at
        → begins_with (key_at keys.now.lines i) (take len (key_at keys.now.lines at)) ≡ true }
    ensures before { (i : ℕ) → i < result
        → begins_with (key_at keys.now.lines i) (take len (key_at keys.now.lines at)) ≡ false }
{
    let _count = keys.len();
    let prefix = key_view(keys, at).prefix(len);
    let mut low = 0;
    let mut high = at;
    let mut leap = 0;
    while low < high {
        let over = ((high - low) / 2).min(leap);
        if begins(keys, high - 1 - over, &prefix) {
            high -= over + 1;
            leap = 2 * over + 1;
        } else {
            low = high - over;
        }
    }
    high
}
