//! What answers for a dump, by its kind, made from the places of its sections.

ghost use Rattle.std.specs.Prelude.{◌≡◌, ◌+◌, IfOk, true};
ghost use Rattle.sx_dump.specs.Opening.{AreBeside, IsCorrectionsAt, IsFunctionAt, IsListAt, IsOpened};
ghost use Rattle.sx_dump.specs.Rooms.{AreTrieRooms, lists_at, room_words};
ghost use Rattle.sx_dump.specs.Viewing.{IsHollowDistView, IsHollowView, IsKeptView, IsLcp2View, IsLcpView, IsLongest, IsViewOf, IsZfastView, ReadsCorrections, ReadsFunction, ReadsNumbers, holds_directories as holds_directories_of};

use crate::bare::bare_view_of;
use crate::rooms::TrieRooms;
use crate::sums::sums_at;
use std::alloc::{AllocError, Global};
use sx_distributors::{HollowDistributor, ZfastDistributor};
use sx_fields::bank::{WordBank, WordsBuf};
use sx_fields::packed::Packed;
use sx_hollow::{HollowDistView, HollowView};
use sx_lcp::{Lcp2View, LcpView};
use sx_sections::counts::delimiter_count;
use sx_sections::open::Opened;
use sx_sections::place::Place;
use sx_signed::SignedView;
use sx_spec::Kind;
use sx_static::FuncView;
use sx_zfast::{Corrections, ZfastView, largest_in};

/// The sections of a dump, as they answer from a bank of its words.
#[derive(Drop)]
pub enum View<B: WordBank + Copy, D: WordBank> {
    /// Those of a static function: the function.
    Func(FuncView<B>),
    /// Those of the kind `lcp`: the lengths and the prefixes.
    Lcp(LcpView<B>),
    /// Those of the kind `lcp2`: the offsets, the codes of the lengths, and the prefixes.
    Lcp2(Lcp2View<B>),
    /// Those of the kind `hollow`: the sums of the two lists.
    Hollow(HollowView<B, D>),
    /// Those of the kind `hollowdist`: the offsets, the sums of the two lists, and the turns.
    HollowDist(HollowDistributor<B, D>),
    /// Those of the kind `zfast`: the offsets, the inner nodes, the handles and their marks, the codes
    /// and the corrections.
    Zfast(ZfastDistributor<B>),
}

/// The function of section `i` of the dump in a bank of words that were opened.
pub(crate) fn function_at<B: WordBank + Copy>(bank: B, opened: &Opened, i: usize) -> FuncView<B>
    requires opened { IsOpened (B.words_of bank) opened.now.header opened.now.places.items }
    requires function { IsFunctionAt opened.now.places.items i }
    ensures { ReadsFunction (B.words_of bank) i result }
{
    match &opened.places.as_slice()[i] {
        Place::Function(section) => {
            FuncView::new(bank, section.body, section.width, section.count as u32)
        }
        Place::List(_) | Place::Sums(_) | Place::Corrections(_) => unreachable!(),
    }
}

/// The numbers of section `i`, a packed list, of the dump in a bank of words that were opened.
fn list_at<B: WordBank + Copy>(bank: B, opened: &Opened, i: usize) -> Packed<B>
    requires opened { IsOpened (B.words_of bank) opened.now.header opened.now.places.items }
    requires list { IsListAt opened.now.places.items i }
    ensures { ReadsNumbers (B.words_of bank) i result }
{
    match &opened.places.as_slice()[i] {
        Place::List(section) => {
            Packed::new(bank, section.body, section.count as usize, section.width)
        }
        Place::Function(_) | Place::Sums(_) | Place::Corrections(_) => unreachable!(),
    }
}

/// What the dump in a bank of words that were opened keeps of the signatures of its keys: the numbers
/// of its last section where it is signed, and else nothing.
pub fn kept_of<B: WordBank + Copy>(bank: B, opened: &Opened) -> Option<Packed<B>>
    requires { IsOpened (B.words_of bank) opened.now.header opened.now.places.items }
    ensures { IsKeptView (B.words_of bank) result }
{
    if opened.header.plan.signed == 0 {
        return None;
    }
    let last = opened.places.len() - 1;
    Some(list_at(bank, opened, last))
}

/// The distributor of the dump of kind `lcp` in a bank of words that were opened.
pub(crate) fn lcp_view<B: WordBank + Copy>(bank: B, opened: &Opened) -> LcpView<B>
    requires opened { IsOpened (B.words_of bank) opened.now.header opened.now.places.items }
    requires kind { opened.now.header.plan.kind ≡ Kind.Lcp }
    ensures { IsLcpView (B.words_of bank) result }
{
    let lengths = function_at(bank, opened, 0);
    let prefixes = function_at(bank, opened, 1);
    let keys = u64::from(opened.header.keys);
    LcpView::new(lengths, prefixes, keys, opened.header.plan.log_bucket)
}

/// The distributor of the dump of kind `lcp2` in a bank of words that were opened.
pub(crate) fn lcp2_view<B: WordBank + Copy>(bank: B, opened: &Opened) -> Lcp2View<B>
    requires opened { IsOpened (B.words_of bank) opened.now.header opened.now.places.items }
    requires kind { opened.now.header.plan.kind ≡ Kind.Lcp2 }
    ensures { IsLcp2View (B.words_of bank) result }
{
    let offsets = function_at(bank, opened, 0);
    let codes = function_at(bank, opened, 1);
    let table = list_at(bank, opened, 2);
    let escaped = function_at(bank, opened, 3);
    let prefixes = function_at(bank, opened, 4);
    let keys = u64::from(opened.header.keys);
    Lcp2View::new(
        offsets,
        codes,
        table,
        escaped,
        prefixes,
        keys,
        opened.header.plan.log_bucket,
    )
}

/// The hollow trie of the dump of kind `hollow` in a bank of words that were opened.
fn hollow_view<B: WordBank + Copy, D: WordBank>(
    bank: B,
    opened: &Opened,
    rooms: TrieRooms<D>,
) -> HollowView<B, D>
    requires opened { IsOpened (B.words_of bank) opened.now.header opened.now.places.items }
    requires kind { opened.now.header.plan.kind ≡ Kind.Hollow }
    requires rooms { AreTrieRooms (B.words_of bank) 0 opened.now.places.items
        (room_words rooms D.words_of) }
    ensures { IsHollowView (B.words_of bank) result }
{
    let left = sums_at(bank, opened, 0, rooms.left);
    let skip = sums_at(bank, opened, 1, rooms.skip);
    let keys = u64::from(opened.header.keys);
    HollowView::over(left, skip, keys, rooms.top)
}

/// The distributor of the dump of kind `hollowdist` in a bank of words that were opened.
fn hollow_dist_view<B: WordBank + Copy, D: WordBank>(
    bank: B,
    opened: &Opened,
    rooms: TrieRooms<D>,
) -> HollowDistributor<B, D>
    requires opened { IsOpened (B.words_of bank) opened.now.header opened.now.places.items }
    requires kind { opened.now.header.plan.kind ≡ Kind.HollowDist }
    requires rooms { AreTrieRooms (B.words_of bank) 1 opened.now.places.items
        (room_words rooms D.words_of) }
    ensures { IsHollowDistView (B.words_of bank) result }
{
    let offsets = function_at(bank, opened, 0);
    let left = sums_at(bank, opened, 1, rooms.left);
    let skip = sums_at(bank, opened, 2, rooms.skip);
    let turns = function_at(bank, opened, 3);
    let delimiters = delimiter_count(&opened.header);
    let blocks = HollowDistView::over(left, skip, turns, delimiters, rooms.top);
    let keys = u64::from(opened.header.keys);
    HollowDistributor::new(offsets, blocks, keys, opened.header.plan.log_bucket)
}

/// The signatures of section `i` of the dump in a bank of words that were opened, with the blocks
/// beside them, which are the numbers of the section behind it.
fn corrections_at<B: WordBank + Copy>(
    bank: B,
    opened: &Opened,
    i: usize,
    blocks: Packed<B>,
) -> Corrections<B>
    requires opened { IsOpened (B.words_of bank) opened.now.header opened.now.places.items }
    requires corrections { IsCorrectionsAt opened.now.places.items i }
    requires blocks { ReadsNumbers (B.words_of bank) (i + 1) blocks }
    requires beside { AreBeside (B.words_of bank) i }
    ensures { ReadsCorrections (B.words_of bank) i result }
{
    match &opened.places.as_slice()[i] {
        Place::Corrections(corrections) => {
            Corrections::new(bank, corrections.body, corrections.count, blocks)
        }
        Place::Function(_) | Place::List(_) | Place::Sums(_) => unreachable!(),
    }
}

/// The length of the longest extent of the nodes of the dump in a bank of words that were opened, if
/// it is of kind `zfast`: all extents are read. Of any other kind it is 0.
pub fn longest_extent<B: WordBank + Copy>(bank: B, opened: &Opened) -> u32
    requires { IsOpened (B.words_of bank) opened.now.header opened.now.places.items }
    ensures { opened.now.header.plan.kind ≡ Kind.Zfast → IsLongest (B.words_of bank) result }
{
    match opened.header.plan.kind {
        Kind::Zfast => largest_in(&list_at(bank, opened, 1)),
        Kind::Func | Kind::Lcp | Kind::Lcp2 | Kind::Hollow | Kind::HollowDist => 0,
    }
}

/// The distributor of the dump of kind `zfast` in a bank of words that were opened, by the length of
/// the longest extent of its nodes.
pub(crate) fn zfast_view<B: WordBank + Copy>(
    bank: B,
    opened: &Opened,
    longest: u32,
) -> ZfastDistributor<B>
    requires opened { IsOpened (B.words_of bank) opened.now.header opened.now.places.items }
    requires kind { opened.now.header.plan.kind ≡ Kind.Zfast }
    requires longest { IsLongest (B.words_of bank) longest }
    ensures { IsZfastView (B.words_of bank) result }
{
    let offsets = function_at(bank, opened, 0);
    let extents = list_at(bank, opened, 1);
    let firsts = list_at(bank, opened, 2);
    let middles = list_at(bank, opened, 3);
    let afters = list_at(bank, opened, 4);
    let handles = function_at(bank, opened, 5);
    let marks = list_at(bank, opened, 6);
    let codes = function_at(bank, opened, 7);
    let beside = list_at(bank, opened, 9);
    let corrections = corrections_at(bank, opened, 8, beside);
    let delimiters = delimiter_count(&opened.header);
    let map = SignedView::new(handles, marks);
    let blocks = ZfastView::new(
        delimiters,
        extents,
        firsts,
        middles,
        afters,
        map,
        codes,
        corrections,
        longest,
    );
    let keys = u64::from(opened.header.keys);
    ZfastDistributor::new(offsets, blocks, keys, opened.header.plan.log_bucket)
}

/// What answers for the dump in a bank of words that were opened, whose kind holds directories, with
/// rooms that are those of this dump.
fn trie_view<B: WordBank + Copy, D: WordBank + Drop>(
    bank: B,
    opened: &Opened,
    rooms: TrieRooms<D>,
) -> View<B, D>
    requires opened { IsOpened (B.words_of bank) opened.now.header opened.now.places.items }
    requires kind { holds_directories_of opened.now.header.plan.kind ≡ true }
    requires rooms { AreTrieRooms (B.words_of bank) (lists_at opened.now.header.plan.kind)
        opened.now.places.items (room_words rooms D.words_of) }
    ensures { IsViewOf (B.words_of bank) result }
{
    match opened.header.plan.kind {
        Kind::Hollow => View::Hollow(hollow_view(bank, opened, rooms)),
        Kind::HollowDist => View::HollowDist(hollow_dist_view(bank, opened, rooms)),
        Kind::Func | Kind::Lcp | Kind::Lcp2 | Kind::Zfast => unreachable!(),
    }
}

/// What answers for the dump in a bank of words that were opened, with rooms that are those of this
/// dump where its kind holds directories, and the length of the longest extent where it is `zfast`.
pub(crate) fn view_in<B: WordBank + Copy, D: WordBank + Drop>(
    bank: B,
    opened: &Opened,
    rooms: TrieRooms<D>,
    longest: u32,
) -> View<B, D>
    requires opened { IsOpened (B.words_of bank) opened.now.header opened.now.places.items }
    requires rooms { holds_directories_of opened.now.header.plan.kind ≡ true
        → AreTrieRooms (B.words_of bank) (lists_at opened.now.header.plan.kind)
        opened.now.places.items (room_words rooms D.words_of) }
    requires longest { opened.now.header.plan.kind ≡ Kind.Zfast → IsLongest (B.words_of bank) longest }
    ensures { IsViewOf (B.words_of bank) result }
{
    match bare_view_of(bank, opened, longest) {
        Some(view) => view,
        None => trie_view(bank, opened, rooms),
    }
}

/// What answers for the dump in a bank of words that were opened.
///
/// # Errors
/// Only for want of memory: directories of Elias-Fano lists are held, and nodes of hollow tries.
pub fn view_of<B: WordBank + Copy>(
    alloc: Global,
    bank: B,
    opened: &Opened,
) -> Result<View<B, WordsBuf>, AllocError>
    requires { IsOpened (B.words_of bank) opened.now.header opened.now.places.items }
    ensures { IfOk result (IsViewOf (B.words_of bank)) }
{
    match bare_view_of(bank, opened, longest_extent(bank, opened)) {
        Some(view) => Ok(view),
        None => {
            let rooms = TrieRooms::of(alloc, bank, opened)?;
            Ok(trie_view(bank, opened, rooms.owned()))
        }
    }
}
