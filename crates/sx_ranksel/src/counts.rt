//! Ones counted word by word.
ghost use Rattle.std.specs.Prelude.{◌≡◌, ◌+◌, ◌-◌, ◌*◌, ◌/◌, ◌<◌, ◌≤◌, ◌^◌, All, length, IfSome};
ghost use Rattle.std.specs.Int.{bit_at};
ghost use Rattle.sx_spec.specs.Fields.{words_for};
ghost use Rattle.sx_ranksel.specs.Directory.{number_at, rank_of};

use crate::search::select_in_word;
use std::sync::ledger::Ledger;
use sx_fields::bank::WordBank;
use sx_steps::Steps;

/// The ones in the words number `from` up to before `to`, counted from word `first` on, at a tick for each.
#[inline]
pub(crate) fn ones_between<B: WordBank, L: Ledger>(
    bank: &B,
    first: usize,
    from: usize,
    to: usize,
    steps: &mut Steps<L>,
) -> u64
    requires order { from ≤ to }
    requires short { to - from ≤ 8 }
    requires within { first + to ≤ length (B.words_of bank.now) }
    requires small { All (λ w. w < 2 ^ 64) (B.words_of bank.now) }
    requires long { length (B.words_of bank.now) < 2 ^ 64 }
    ensures ones { let x = number_at first (B.words_of bank.now) in
        rank_of (64 * to) x ≡ rank_of (64 * from) x + result }
    ensures few { result ≤ 64 * (to - from) }
    ensures cost { steps.new ≡ steps.old + (to - from) }
{
    let mut ones = 0;
    for word in from..to {
        ones += u64::from(bank.word(first + word, steps).count_ones());
    }
    ones
}

/// The ones below `pos`, where `before` of them are below the block of 512 bits that holds bit `pos`.
#[inline]
pub(crate) fn ones_below<B: WordBank, L: Ledger>(
    bank: &B,
    first: usize,
    before: u64,
    pos: u64,
    steps: &mut Steps<L>,
) -> u64
    requires before { before ≡ rank_of (512 * (pos / 512)) (number_at first (B.words_of bank.now)) }
    requires few { pos ≤ 2 ^ 34 }
    requires within { first + words_for pos ≤ length (B.words_of bank.now) }
    requires small { All (λ w. w < 2 ^ 64) (B.words_of bank.now) }
    requires long { length (B.words_of bank.now) < 2 ^ 64 }
    ensures ones { result ≡ rank_of pos (number_at first (B.words_of bank.now)) }
    ensures counted { steps.old ≤ steps.new }
    ensures cost { steps.new ≤ steps.old + 8 }
{
    let whole = (pos / 64) as usize;
    let block = (pos / 512 * 8) as usize;
    let ones = before + ones_between(bank, first, block, whole, steps);
    if pos % 64 == 0 {
        return ones;
    }
    let last = bank.word(first + whole, steps) & u64::MAX >> (64 - pos % 64);
    ones + u64::from(last.count_ones())
}

/// The place of a one, and the ones below its word.
#[derive(Clone, Copy)]
pub(crate) struct One {
    pub place: u64,
    pub below: u64,
}

/// The one number `k` of all, where it stands in a word number `from` up to before `to`, and `before` ones are below these.
#[inline]
pub(crate) fn select_between<B: WordBank, L: Ledger>(
    bank: &B,
    first: usize,
    from: usize,
    to: usize,
    mut before: u64,
    k: u64,
    steps: &mut Steps<L>,
) -> One
    requires order { from ≤ to }
    requires few { to < 2 ^ 30 }
    requires before { before ≡ rank_of (64 * from) (number_at first (B.words_of bank.now)) }
    requires low { before ≤ k }
    requires high { k < rank_of (64 * to) (number_at first (B.words_of bank.now)) }
    requires within { first + to ≤ length (B.words_of bank.now) }
    requires small { All (λ w. w < 2 ^ 64) (B.words_of bank.now) }
    requires long { length (B.words_of bank.now) < 2 ^ 64 }
    ensures one { bit_at (number_at first (B.words_of bank.now)) result.place ≡ 1 }
    ensures below { rank_of result.place (number_at first (B.words_of bank.now)) ≡ k }
    ensures word { result.below
        ≡ rank_of (64 * (result.place / 64)) (number_at first (B.words_of bank.now)) }
    ensures least { 64 * from ≤ result.place }
    ensures most { result.place < 64 * to }
    ensures counted { steps.old < steps.new }
    ensures cost { steps.new ≤ steps.old + (to - from) }
{
    for word in from..to {
        let bits = bank.word(first + word, steps);
        let ones = u64::from(bits.count_ones());
        if k - before < ones {
            return One {
                place: 64 * word as u64 + u64::from(select_in_word(bits, (k - before) as u32)),
                below: before,
            };
        }
        before += ones;
    }
    unreachable!()
}

/// The first one in the words number `from` up to before `to`, where there is any.
#[inline]
pub(crate) fn next_between<B: WordBank, L: Ledger>(
    bank: &B,
    first: usize,
    from: usize,
    to: usize,
    steps: &mut Steps<L>,
) -> Option<u64>
    requires order { from ≤ to }
    requires few { to < 2 ^ 30 }
    requires within { first + to ≤ length (B.words_of bank.now) }
    requires small { All (λ w. w < 2 ^ 64) (B.words_of bank.now) }
    requires long { length (B.words_of bank.now) < 2 ^ 64 }
    ensures one { IfSome result (λ p. bit_at (number_at first (B.words_of bank.now)) p ≡ 1) }
    ensures below { IfSome result (λ p. rank_of p (number_at first (B.words_of bank.now))
        ≡ rank_of (64 * from) (number_at first (B.words_of bank.now))) }
    ensures counted { steps.old ≤ steps.new }
    ensures cost { steps.new ≤ steps.old + (to - from) }
{
    for word in from..to {
        let bits = bank.word(first + word, steps);
        if bits != 0 {
            return Some(64 * word as u64 + u64::from(bits.trailing_zeros()));
        }
    }
    None
}
