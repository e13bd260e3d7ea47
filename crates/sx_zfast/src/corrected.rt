//! The corrections of a dump: the signatures of the keys that are misled, which rise, and the block of
//! each.

ghost use Rattle.std.specs.Prelude.{◌≡◌, ◌+◌, ◌*◌, ◌<◌, ◌≤◌, ◌^◌, true, length};
ghost use Rattle.sx_spec_strings.specs.Numbers.{binary_digits};
ghost use Rattle.sx_spec.specs.Reply.{block_beside};
ghost use Rattle.sx_spec.specs.Signature.{signature_cmp};
ghost use Rattle.sx_sig.specs.SignatureWords.{rises, signature_at, signatures_at};
ghost use Rattle.sx_zfast.specs.Maps.{numbers_read};

use std::alloc::AllocError;
use std::cmp::Ordering;
use std::sync::ledger::Ledger;
use sx_fields::bank::WordBank;
use sx_fields::packed::Packed;
use sx_spec::Signature;
use sx_steps::Steps;

/// Signatures in words of a bank from a word on, three words each, and the block beside each.
#[derive(Copy)]
pub struct Corrections<B: WordBank + Copy> {
    bank: B,
    first: usize,
    count: u64,
    blocks: Packed<B>,
    ghost few: { count < 2 ^ 32 },
    ghost long: { length (B.words_of bank) < 2 ^ 64 },
    ghost within: { first + 3 * count ≤ length (B.words_of bank) },
    ghost beside: { length (numbers_read blocks) ≡ count },
    ghost rising: { rises (signatures_at (B.words_of bank) first count) ≡ true },
}

impl<B: WordBank + Copy> Clone for Corrections<B> {
    ghost is_clone = { λ x y. y ≡ x };

    fn clone(&self) -> Result<Self, AllocError> {
        Ok(*self)
    }
}

impl<B: WordBank + Copy> Corrections<B> {
    /// The `count` signatures whose words begin at word `first`, fewer than 2 to the power 32 and
    /// rising, with the block of each.
    pub fn new(bank: B, first: usize, count: u64, blocks: Packed<B>) -> Corrections<B>
        requires few { count < 2 ^ 32 }
        requires within { first + 3 * count ≤ length (B.words_of bank) }
        requires blocks { length (numbers_read blocks) ≡ count }
        requires rising { rises (signatures_at (B.words_of bank) first count) ≡ true }
        ensures bank { result.bank ≡ bank }
        ensures first { result.first ≡ first }
        ensures count { result.count ≡ count }
        ensures blocks { result.blocks ≡ blocks }
    {
        let _words = bank.words();
        Corrections {
            bank,
            first,
            count,
            blocks,
        }
    }

    /// How signature `i` stands to another. Three words are read.
    fn order<L: Ledger>(&self, i: u64, sig: &Signature, steps: &mut Steps<L>) -> Ordering
        requires { i < self.now.count }
        ensures value { result ≡ signature_cmp
            (signature_at (B.words_of self.now.bank) self.now.first i) sig.now }
        ensures cost { steps.new ≡ steps.old + 3 }
    {
        let at = self.first + 3 * i as usize;
        let w0 = self.bank.word(at, steps);
        let w1 = self.bank.word(at + 1, steps);
        let w2 = self.bank.word(at + 2, steps);
        [w0, w1, w2].cmp(&[sig.w0, sig.w1, sig.w2])
    }

    /// The block that stands beside a signature, if there is one. Three words are read for each
    /// binary digit of the count, at most, and two.
    pub fn lookup<L: Ledger>(&self, sig: &Signature, steps: &mut Steps<L>) -> Option<u64>
        ensures value { result ≡ block_beside
            (signatures_at (B.words_of self.now.bank) self.now.first self.now.count)
            (numbers_read self.now.blocks) sig.now }
        ensures counted { steps.old ≤ steps.new }
        ensures cost { steps.new ≤ steps.old + (3 * binary_digits self.now.count + 2) }
    {
        let mut low = 0;
        let mut high = self.count;
        while low < high {
            let middle = low + (high - low) / 2;
            match self.order(middle, sig, steps) {
                Ordering::Less => low = middle + 1,
                Ordering::Equal => return Some(self.blocks.read(middle as usize, steps)),
                Ordering::Greater => high = middle,
            }
        }
        None
    }
}
