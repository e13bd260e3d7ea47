//! Dumps that answer without memory of their own: of the kinds that hold none, and of the others in
//! rooms that are given.

ghost use Rattle.std.specs.Prelude.{◌≡◌, IfSome, None, true};
ghost use Rattle.sx_dump.specs.Opening.{IsOpened};
ghost use Rattle.sx_dump.specs.Rooms.{AreTrieRooms, lists_at, room_words};
ghost use Rattle.sx_dump.specs.Viewing.{IsLongest, IsViewOf, holds_directories as holds_directories_of};

use crate::dump::Dump;
use crate::rooms::TrieRooms;
use crate::view::{View, function_at, kept_of, lcp_view, lcp2_view, view_in, zfast_view};
use sx_fields::bank::WordBank;
use sx_sections::open::Opened;
use sx_spec::Kind;

/// Whether what answers for a dump of the kind holds directories in memory.
pub fn holds_directories(kind: Kind) -> bool
    ensures { result ≡ holds_directories_of kind }
{
    match kind {
        Kind::Func | Kind::Lcp | Kind::Lcp2 | Kind::Zfast => false,
        Kind::Hollow | Kind::HollowDist => true,
    }
}

/// What answers for the dump in a bank of words that were opened, and none where it would hold
/// directories in memory.
pub(crate) fn bare_view_of<B: WordBank + Copy, D: WordBank>(
    bank: B,
    opened: &Opened,
    longest: u32,
) -> Option<View<B, D>>
    requires opened { IsOpened (B.words_of bank) opened.now.header opened.now.places.items }
    requires longest { opened.now.header.plan.kind ≡ Kind.Zfast → IsLongest (B.words_of bank) longest }
    ensures view { IfSome result (IsViewOf (B.words_of bank)) }
    ensures none { result ≡ None → holds_directories_of opened.now.header.plan.kind ≡ true }
{
    match opened.header.plan.kind {
        Kind::Func => Some(View::Func(function_at(bank, opened, 0))),
        Kind::Lcp => Some(View::Lcp(lcp_view(bank, opened))),
        Kind::Lcp2 => Some(View::Lcp2(lcp2_view(bank, opened))),
        Kind::Hollow | Kind::HollowDist => None,
        Kind::Zfast => Some(View::Zfast(zfast_view(bank, opened, longest))),
    }
}

impl<B: WordBank + Copy, D: WordBank + Drop> Dump<B, D> {
    /// The dump in a bank of words that were opened, made without memory and without a look at its
    /// sections: with rooms that are those of this dump where its kind holds directories, and the length
    /// of the longest extent where it is `zfast`. Of any other kind these may be any.
    #[inline(always)]
    pub fn with_rooms(bank: B, opened: Opened, rooms: TrieRooms<D>, longest: u32) -> Self
        requires opened { IsOpened (B.words_of bank) opened.header opened.places.items }
        requires rooms { holds_directories_of opened.header.plan.kind ≡ true
            → AreTrieRooms (B.words_of bank) (lists_at opened.header.plan.kind)
            opened.places.items (room_words rooms D.words_of) }
        requires longest { opened.header.plan.kind ≡ Kind.Zfast → IsLongest (B.words_of bank) longest }
        ensures { result.bank ≡ bank }
    {
        let view = view_in(bank, &opened, rooms, longest);
        let kept = kept_of(bank, &opened);
        Dump {
            bank,
            header: opened.header,
            places: opened.places,
            view,
            kept,
        }
    }
}
