//! What the view of a hollow trie holds beside the words of its dump: directories of its two lists,
//! and the nodes that are kept.

ghost use Rattle.std.specs.Prelude.{◌≡◌, ◌+◌, ◌<◌, ◌^◌, IfOk, length, true};
ghost use Rattle.sx_spec.specs.Reply.{gaps, numbers_of};
ghost use Rattle.sx_hollow.specs.Tops.{AreKept};
ghost use Rattle.sx_dump.specs.Opening.{IsOpened, IsSumsAt, dump_in};
ghost use Rattle.sx_dump.specs.Rooms.{AreSumsRooms, AreTrieRooms, lists_at, room_words};
ghost use Rattle.sx_dump.specs.Viewing.{holds_directories as holds_directories_of};

use crate::sums::{directories_at, sums_at};
use std::alloc::{AllocError, Global};
use sx_fields::bank::{WordBank, Words, WordsBuf};
use sx_hollow::top_of;
use sx_ranksel::directories::Directories;
use sx_sections::counts::delimiter_count;
use sx_sections::open::Opened;
use sx_spec::Kind;

/// What the view of a hollow trie holds, in lists of words wherever they stand.
#[derive(Drop)]
pub struct TrieRooms<D> {
    /// The directories of the sums of the numbers of leaves under the left children.
    pub left: Directories<D>,
    /// The directories of the sums of the numbers of bits that are skipped.
    pub skip: Directories<D>,
    /// The nodes with most leaves.
    pub top: D,
}

/// The nodes that are kept of so many, where the two lists are section `first` of the dump in a bank
/// of words that were opened, and the one behind it.
fn top_at<B: WordBank + Copy>(
    alloc: Global,
    bank: B,
    opened: &Opened,
    first: usize,
    nodes: u64,
    left: Directories<Words<'_>>,
    skip: Directories<Words<'_>>,
) -> Result<Vec<u64>, AllocError>
    requires opened { IsOpened (B.words_of bank) opened.now.header opened.now.places.items }
    requires low { first < 2 }
    requires lefts { IsSumsAt opened.now.places.items first }
    requires skips { IsSumsAt opened.now.places.items (first + 1) }
    requires left { AreSumsRooms (B.words_of bank) opened.now.places.items first
        left.directory.words.now left.groups.words.now left.places.words.now }
    requires skip { AreSumsRooms (B.words_of bank) opened.now.places.items (first + 1)
        skip.directory.words.now skip.groups.words.now skip.places.words.now }
    requires few { nodes < 2 ^ 32 }
    requires within { nodes < length (numbers_of (dump_in (B.words_of bank)) first) }
    requires beside { nodes < length (numbers_of (dump_in (B.words_of bank)) (first + 1)) }
    ensures { IfOk result (λ v. AreKept (gaps (numbers_of (dump_in (B.words_of bank)) first))
        (gaps (numbers_of (dump_in (B.words_of bank)) (first + 1))) v.items) }
{
    let lefts = sums_at(bank, opened, first, left);
    let skips = sums_at(bank, opened, first + 1, skip);
    top_of(alloc, &lefts, &skips, nodes)
}

/// The rooms of a hollow trie of so many nodes whose two lists are section `first` of the dump in a
/// bank of words that were opened, and the one behind it.
fn rooms_at<B: WordBank + Copy>(
    alloc: Global,
    bank: B,
    opened: &Opened,
    first: usize,
    nodes: u64,
) -> Result<TrieRooms<Vec<u64>>, AllocError>
    requires opened { IsOpened (B.words_of bank) opened.now.header opened.now.places.items }
    requires low { first < 2 }
    requires lefts { IsSumsAt opened.now.places.items first }
    requires skips { IsSumsAt opened.now.places.items (first + 1) }
    requires few { nodes < 2 ^ 32 }
    requires within { nodes < length (numbers_of (dump_in (B.words_of bank)) first) }
    requires beside { nodes < length (numbers_of (dump_in (B.words_of bank)) (first + 1)) }
    ensures { IfOk result (λ r. AreTrieRooms (B.words_of bank) first opened.now.places.items
        (room_words r (λ v. v.items))) }
{
    let left = directories_at(alloc, bank, opened, first)?;
    let skip = directories_at(alloc, bank, opened, first + 1)?;
    let lefts = left.lent();
    let skips = skip.lent();
    let top = top_at(alloc, bank, opened, first, nodes, lefts, skips)?;
    Ok(TrieRooms { left, skip, top })
}

/// The rooms of the dump of kind `hollow` in a bank of words that were opened.
fn hollow_rooms<B: WordBank + Copy>(
    alloc: Global,
    bank: B,
    opened: &Opened,
) -> Result<TrieRooms<Vec<u64>>, AllocError>
    requires opened { IsOpened (B.words_of bank) opened.now.header opened.now.places.items }
    requires kind { opened.now.header.plan.kind ≡ Kind.Hollow }
    ensures { IfOk result (λ r. AreTrieRooms (B.words_of bank) 0 opened.now.places.items
        (room_words r (λ v. v.items))) }
{
    let keys = u64::from(opened.header.keys);
    rooms_at(alloc, bank, opened, 0, keys.saturating_sub(1))
}

/// The rooms of the dump of kind `hollowdist` in a bank of words that were opened.
fn hollow_dist_rooms<B: WordBank + Copy>(
    alloc: Global,
    bank: B,
    opened: &Opened,
) -> Result<TrieRooms<Vec<u64>>, AllocError>
    requires opened { IsOpened (B.words_of bank) opened.now.header opened.now.places.items }
    requires kind { opened.now.header.plan.kind ≡ Kind.HollowDist }
    ensures { IfOk result (λ r. AreTrieRooms (B.words_of bank) 1 opened.now.places.items
        (room_words r (λ v. v.items))) }
{
    let delimiters = delimiter_count(&opened.header);
    rooms_at(alloc, bank, opened, 1, delimiters.saturating_sub(1))
}

impl TrieRooms<Vec<u64>> {
    /// Those of the dump in a bank of words that were opened, whose kind holds directories.
    ///
    /// # Errors
    /// Only for want of memory.
    pub fn of<B: WordBank + Copy>(
        alloc: Global,
        bank: B,
        opened: &Opened,
    ) -> Result<TrieRooms<Vec<u64>>, AllocError>
        requires opened { IsOpened (B.words_of bank) opened.now.header opened.now.places.items }
        requires kind { holds_directories_of opened.now.header.plan.kind ≡ true }
        ensures { IfOk result (λ r. AreTrieRooms (B.words_of bank)
            (lists_at opened.now.header.plan.kind) opened.now.places.items
            (room_words r (λ v. v.items))) }
    {
        match opened.header.plan.kind {
            Kind::Hollow => hollow_rooms(alloc, bank, opened),
            Kind::HollowDist => hollow_dist_rooms(alloc, bank, opened),
            Kind::Func | Kind::Lcp | Kind::Lcp2 | Kind::Zfast => unreachable!(),
        }
    }

    /// The same words, read one at a time where they are.
    pub fn owned(self) -> TrieRooms<WordsBuf>
        ensures { room_words result (λ w. w.words.items) ≡ room_words self (λ v. v.items) }
    {
        let left = self.left.owned();
        let skip = self.skip.owned();
        let top = WordsBuf::new(self.top);
        TrieRooms { left, skip, top }
    }

    /// The same words, borrowed.
    pub fn lent(&self) -> TrieRooms<Words<'_>>
        ensures { room_words result (λ w. w.words.now) ≡ room_words self.now (λ v. v.items) }
    {
        let left = self.left.lent();
        let skip = self.skip.lent();
        let top = Words::new(&self.top);
        TrieRooms { left, skip, top }
    }
}
