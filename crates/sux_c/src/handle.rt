//! A dump's handle: where its words lie, whether they have passed every check, and what was found.

ghost use Rattle.std.specs.Prelude.{◌≡◌, ◌↔◌, IfSome, IsTrue, None, false};
ghost use Rattle.sux_c.specs.Handles.{IsServed};

use crate::found::SuxFound;
use crate::rooms::SuxRooms;
use sx_dump::Dump;
use sx_fields::bank::Words;

/// A dump where its words lie, open or not. What is known of an open one is kept by each call that
/// writes a handle.
#[repr(C)]
#[derive(Clone, Copy)]
pub struct SuxDump<'a> {
    pub words: &'a [u64],
    pub rooms: SuxRooms<'a>,
    pub found: SuxFound,
    pub opened: bool,
    ghost checked: { IsTrue opened → IsServed words.now found rooms },
}

impl<'a> SuxDump<'a> {
    /// The dump of a handle, none where it isn't open. No word is read.
    #[inline(always)]
    pub fn dump(&self) -> Option<Dump<Words<'a>, Words<'a>>>
        ensures words { IfSome result (λ d. d.bank.words.now ≡ self.now.words.now) }
        ensures none { (result ≡ None) ↔ (self.now.opened ≡ false) }
    {
        if !self.opened {
            return None;
        }
        let opened = self.found.to_opened();
        let rooms = self.rooms.to_rooms();
        Some(Dump::with_rooms(Words::new(self.words), opened, rooms, self.found.longest))
    }
}
