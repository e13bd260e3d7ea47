//! The directories by which bits are ranked and selected, and what makes them.
ghost use Rattle.std.specs.Prelude.{◌≡◌, ◌+◌, ◌*◌, ◌/◌, ◌<◌, ◌≤◌, ◌^◌, All, IfOk, length};
ghost use Rattle.sx_spec.specs.Fields.{words_for};
ghost use Rattle.sx_ranksel.specs.Directory.{directory_of, number_at};
ghost use Rattle.sx_ranksel.specs.Rooms.{AreDirectories};

use crate::counts::{ones_below, ones_between};
use crate::groups::groups_of;
use std::alloc::{AllocError, Global};
use std::marker::Brand;
use std::sync::ledger::{Blank, Ledger};
use sx_fields::bank::{WordBank, Words, WordsBuf};
use sx_steps::Steps;

/// The directories of the bits of a bank: three lists of words, wherever they stand.
#[derive(Drop)]
pub struct Directories<D> {
    /// The ones before each block of eight words.
    pub directory: D,
    /// A word for each group of 64 ones.
    pub groups: D,
    /// The places of the ones of groups that are spread over many words.
    pub places: D,
}

/// The ones before each block of eight words, and before the block that begins where the bits end.
fn block_counts<B: WordBank, L: Ledger>(
    alloc: Global,
    bank: &B,
    first: usize,
    bits: u64,
    steps: &mut Steps<L>,
) -> Result<Vec<u64>, AllocError>
    requires few { bits ≤ 2 ^ 34 }
    requires within { first + words_for bits ≤ length (B.words_of bank.now) }
    requires small { All (λ w. w < 2 ^ 64) (B.words_of bank.now) }
    requires long { length (B.words_of bank.now) < 2 ^ 64 }
    ensures counts { IfOk result (λ v. v.items
        ≡ directory_of bits (number_at first (B.words_of bank.now))) }
    ensures counted { steps.old ≤ steps.new }
    ensures cost { IfOk result (λ _. steps.new ≡ steps.old + 8 * (bits / 512)) }
{
    let blocks = (bits / 512) as usize;
    let mut counts = Vec::with_capacity(alloc, blocks + 1)?;
    let mut ones = 0;
    counts.push(ones)?;
    for block in 0..blocks {
        ones += ones_between(bank, first, 8 * block, 8 * block + 8, steps);
        counts.push(ones)?;
    }
    Ok(counts)
}

/// What `Directories::of` makes, with a count of its own.
fn made_counted<B: WordBank + Copy, L: Ledger>(
    alloc: Global,
    bank: B,
    first: usize,
    bits: u64,
    blank: Blank,
) -> Result<Directories<Vec<u64>>, AllocError>
    requires name { blank.name ≡ L.name }
    requires parts { blank.parts ≡ L.parts }
    requires some { 0 < blank.parts }
    requires few { bits ≤ 2 ^ 34 }
    requires within { first + words_for bits ≤ length (B.words_of bank) }
    ensures made { IfOk result (λ d. AreDirectories (B.words_of bank) first bits
        d.directory.items d.groups.items d.places.items) }
{
    let mut steps = Steps::<L>::new(blank);
    let _words = bank.words();
    let directory = block_counts(alloc, &bank, first, bits, &mut steps)?;
    let before = directory[(bits / 512) as usize];
    let ones = ones_below(&bank, first, before, bits, &mut steps);
    let groups = groups_of(alloc, &bank, first, bits, ones, &mut steps)?;
    Ok(Directories {
        directory,
        groups: groups.words,
        places: groups.places,
    })
}

impl Directories<Vec<u64>> {
    /// Those of the `bits` bits of the bank from word `first` on.
    ///
    /// # Errors
    /// Only for want of memory.
    pub fn of<B: WordBank + Copy>(
        alloc: Global,
        bank: B,
        first: usize,
        bits: u64,
    ) -> Result<Directories<Vec<u64>>, AllocError>
        requires few { bits ≤ 2 ^ 34 }
        requires within { first + words_for bits ≤ length (B.words_of bank) }
        ensures made { IfOk result (λ d. AreDirectories (B.words_of bank) first bits
            d.directory.items d.groups.items d.places.items) }
    {
        made_counted::<B, Brand>(alloc, bank, first, bits, Blank::new(1))
    }

    /// The same words, read one at a time where they are.
    pub fn owned(self) -> Directories<WordsBuf>
        ensures directory { result.directory.words.items ≡ self.directory.items }
        ensures groups { result.groups.words.items ≡ self.groups.items }
        ensures places { result.places.words.items ≡ self.places.items }
    {
        Directories {
            directory: WordsBuf::new(self.directory),
            groups: WordsBuf::new(self.groups),
            places: WordsBuf::new(self.places),
        }
    }

    /// The same words, borrowed.
    pub fn lent(&self) -> Directories<Words<'_>>
        ensures directory { result.directory.words.now ≡ self.now.directory.items }
        ensures groups { result.groups.words.now ≡ self.now.groups.items }
        ensures places { result.places.words.now ≡ self.now.places.items }
    {
        Directories {
            directory: Words::new(&self.directory),
            groups: Words::new(&self.groups),
            places: Words::new(&self.places),
        }
    }
}
