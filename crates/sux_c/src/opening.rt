//! The opening of a dump where its words lie.

ghost use Rattle.std.specs.Prelude.{◌≡◌, ◌≢◌, ◌↔◌, ◌⊎◌, IfErr, IfOk, OnOk, IsTrue, length, true};
ghost use Rattle.std.specs.Int.{div_ceil};
ghost use Rattle.sx_spec.specs.Layout.{header_of};
ghost use Rattle.sx_dump.specs.Opening.{IsOpened};
ghost use Rattle.sx_dump.specs.Viewing.{holds_directories as holds_directories_of};
ghost use Rattle.sux_c.specs.Handles.{AreRoomsFor, IsServed};
ghost use Rattle.sux_c.specs.Rooms.{rooms_in};
ghost use Rattle.sux_c.specs.Verdicts.{Fails, IsRoomStop, IsStop, Passes, TellsRoom};

use crate::found::SuxFound;
use crate::handle::SuxDump;
use crate::rooms::SuxRooms;
use crate::status::{BAD_COUNT, DONE, NO_DUMP, NO_MEMORY, NO_ROOM};
use std::alloc::Global;
use sx_dump::{TrieRooms, holds_directories, longest_extent};
use sx_fields::bank::Words;
use sx_kinds::offer;
use sx_sections::open::{Opened, open_offered};

/// Why a handle isn't open.
#[derive(Clone, Copy, Drop)]
pub(crate) enum Stop {
    /// The words are not as many as the bytes fill.
    Count,
    /// The check of this number is the first that fails.
    Check(u8),
    /// There is room for fewer words than these, which are put there.
    Room(u128),
    /// Memory is wanting.
    Memory,
}

/// What is known of a dump that is served.
#[derive(Clone, Copy, Drop)]
struct Served<'a> {
    found: SuxFound,
    rooms: SuxRooms<'a>,
}

/// What the checks of a file of so many bytes with these words find.
///
/// # Errors
/// The number of the first check that fails.
fn find(words: &[u64], bytes: u64) -> Result<Opened, u8>
    requires { length words.now ≡ div_ceil bytes 8 }
    ensures opened { IfOk result (λ o. IsOpened words.now o.header o.places.items) }
    ensures passes { OnOk result (Passes words.now bytes) }
    ensures fails { IfErr result (Fails words.now bytes) }
{
    match open_offered(words, bytes, offer::kinds(), offer::signed()) {
        Ok(opened) => Ok(opened),
        Err(check) => Err(check.number()),
    }
}

/// The rooms of a dump in words that were opened, made in memory and copied to room of the caller's,
/// and none where its kind holds no directories.
///
/// # Errors
/// Memory is wanting, or room.
fn rooms_in_room<'a>(
    alloc: Global,
    words: &[u64],
    opened: &Opened,
    room: &'a mut [u64],
) -> Result<SuxRooms<'a>, Stop>
    requires { IsOpened words.now opened.now.header opened.now.places.items }
    ensures rooms { IfOk result (λ r. AreRoomsFor words.now opened.now.header
        opened.now.places.items (rooms_in r)) }
    ensures stop { IfErr result (IsRoomStop words.now opened.now.header opened.now.places.items
        (length room.old)) }
{
    if !holds_directories(opened.header.plan.kind) {
        return Ok(SuxRooms::none());
    }
    let Ok(rooms) = TrieRooms::of(alloc, Words::new(words), opened) else {
        return Err(Stop::Memory);
    };
    match SuxRooms::of(&rooms, room) {
        Ok(lent) => Ok(lent),
        Err(wanted) => Err(Stop::Room(wanted)),
    }
}

/// What is known of the dump in these words of a file of so many bytes, with room of the caller's.
///
/// # Errors
/// Why it can't be asked.
fn find_served<'a>(
    alloc: Global,
    words: &[u64],
    bytes: u64,
    room: &'a mut [u64],
) -> Result<Served<'a>, Stop>
    ensures served { IfOk result (λ s. IsServed words.now s.found s.rooms) }
    ensures count { OnOk result (length words.now ≡ div_ceil bytes 8) }
    ensures passes { OnOk result (Passes words.now bytes) }
    ensures stop { IfErr result (IsStop words.now bytes (length room.old)) }
{
    if words.len() as u64 != bytes.div_ceil(8) {
        return Err(Stop::Count);
    }
    match find(words, bytes) {
        Ok(opened) => {
            let rooms = rooms_in_room(alloc, words, &opened, room)?;
            let longest = longest_extent(Words::new(words), &opened);
            let found = SuxFound::of(&opened, longest);
            Ok(Served { found, rooms })
        }
        Err(check) => Err(Stop::Check(check)),
    }
}

/// Opens the dump that a file of so many bytes with these words is. Where it is none, `check` gets
/// the number of the first check that fails. What a hollow trie is answered by is put to the front
/// of `room`, where the handle reads it, and where that is too short, `wanted` gets the number of
/// words. With any status but `DONE` the handle isn't open.
#[unsafe(no_mangle)]
pub extern "C" fn sux_open<'a>(
    alloc: Global,
    words: &'a [u64],
    bytes: u64,
    room: &'a mut [u64],
    dump: &mut SuxDump<'a>,
    check: &mut u8,
    wanted: &mut u64,
) -> u8
    ensures words { dump.new.words.now ≡ words.now }
    ensures opened { IsTrue dump.new.opened ↔ (result ≡ DONE) }
    ensures only { (result ≡ DONE) ⊎ (result ≡ BAD_COUNT) ⊎ (result ≡ NO_DUMP) ⊎ (result ≡ NO_ROOM)
        ⊎ (result ≡ NO_MEMORY) }
    ensures count { (result ≡ BAD_COUNT) ↔ (length words.now ≢ div_ceil bytes 8) }
    ensures done { result ≡ DONE → Passes words.now bytes }
    ensures fails { result ≡ NO_DUMP → Fails words.now bytes check.new }
    ensures no_room { result ≡ NO_ROOM → Passes words.now bytes }
    ensures tells { result ≡ NO_ROOM → TellsRoom words.now (length room.old) wanted.new }
    ensures no_memory { result ≡ NO_MEMORY → Passes words.now bytes }
    ensures kind { result ≡ NO_MEMORY
        → holds_directories_of (header_of words.now).plan.kind ≡ true }
    ensures kept { result ≢ NO_DUMP → check.new ≡ check.old }
    ensures untold { result ≢ NO_ROOM → wanted.new ≡ wanted.old }
{
    match find_served(alloc, words, bytes, room) {
        Ok(served) => {
            *dump = SuxDump {
                words,
                rooms: served.rooms,
                found: served.found,
                opened: true,
            };
            DONE
        }
        Err(stop) => {
            *dump = SuxDump {
                words,
                rooms: SuxRooms::none(),
                found: dump.found,
                opened: false,
            };
            match stop {
                Stop::Count => BAD_COUNT,
                Stop::Check(number) => {
                    *check = number;
                    NO_DUMP
                }
                Stop::Room(count) => {
                    *wanted = count.min(u128::from(u64::MAX)) as u64;
                    NO_ROOM
                }
                Stop::Memory => NO_MEMORY,
            }
        }
    }
}
