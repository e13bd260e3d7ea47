//! The place of a one in a word.
ghost use Rattle.std.specs.Prelude.{◌≡◌, ◌+◌, ◌*◌, ◌%◌, ◌<◌, ◌≤◌, ◌^◌};
ghost use Rattle.std.specs.Int.{bit_at};
ghost use Rattle.std.specs.Int.Count.{ones};

/// How many of the first seven pieces of `size` bits of a word end before its one number `k`, where that is in the first
/// eight.
#[inline(always)]
fn pieces_before(word: u64, size: u32, k: u32) -> u32
    requires some { 0 < size }
    requires short { size ≤ 8 }
    requires inside { k < ones (word % 2 ^ (size * 8)) }
    ensures few { result < 8 }
    ensures low { ones (word % 2 ^ (size * result)) ≤ k }
    ensures high { k < ones (word % 2 ^ (size * (result + 1))) }
{
    let mut pieces = 0;
    for piece in 1..8u32 {
        let below = word & u64::MAX >> (64 - size * piece);
        // no count waits for another, and the sum is done without a branch
        if below.count_ones() <= k {
            pieces += 1;
        }
    }
    pieces
}

/// The place of one number `k` of a word, counted from 0.
#[inline]
pub(crate) fn select_in_word(word: u64, k: u32) -> u32
    requires { k < ones word }
    ensures within { result < 64 }
    ensures one { bit_at word result ≡ 1 }
    ensures below { ones (word % 2 ^ result) ≡ k }
{
    let byte = 8 * pieces_before(word, 8, k);
    let left = k - (word & ((1 << byte) - 1)).count_ones();
    byte + pieces_before(word >> byte, 1, left)
}
