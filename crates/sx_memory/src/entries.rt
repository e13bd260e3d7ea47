//! Entries by name, and the one in use.
ghost use Rattle.std.specs.Prelude.{◌≡◌, ◌≢◌, ◌+◌, ◌-◌, ◌<◌, ◌≤◌, ℕ, List, [], true, Some, None, length, take, drop, ◌++◌, min, max, unwrap_or, IfSome, IfNone, IfOk, OnOk, OnErr, IsSome, MatchOption, is_some};
ghost use Rattle.std.specs.Io.KnownBytes.{Consumes, IsAtEnd};
ghost use Rattle.sx_spec.specs.World.{KeepsFiles, SetsFile};
ghost use Rattle.sx_edge.specs.Shelf.{AppendsFile};
ghost use Rattle.sx_memory.specs.Entries.{files_of, room_of, place_named};
ghost use Rattle.sx_memory.specs.InUse.{is_placed, name_of};
ghost use Rattle.sx_memory.specs.Shelves.{told, rest_from, name_at, room_at, KeepsRoom, KeepsOtherRoom, MakesRoom};

use crate::copies::copy_front;
use crate::entry::Entry;
use crate::in_use::InUse;
use std::alloc::{AllocError, Global};

/// The place of the name's entry.
pub(crate) fn place_of(entries: &[Entry], name: &[u8]) -> Option<usize>
    ensures { result ≡ place_named name.now entries.now }
{
    entries.iter().position(|entry| entry.name() == name)
}

/// The bytes of the name's file, where there is one.
pub(crate) fn file_named<'a>(entries: &'a [Entry], name: &[u8]) -> Option<&'a [u8]>
    ensures none { IfNone result (files_of entries.now name.now ≡ None) }
    ensures some { IfSome result (λ bytes. files_of entries.now name.now ≡ Some bytes.now) }
{
    match place_of(entries, name) {
        Some(place) => {
            let entry = &entries[place];
            if entry.there() {
                Some(entry.bytes())
            } else {
                None
            }
        }
        None => None,
    }
}

/// Makes room under the name, where less was made.
pub(crate) fn make_room(
    alloc: Global,
    entries: &mut Vec<Entry>,
    name: &[u8],
    size: usize,
) -> Result<(), AllocError>
    ensures files { KeepsFiles (told entries.old.items) (told entries.new.items) }
    ensures room { OnOk result (MakesRoom name.now size entries.old.items entries.new.items) }
    ensures others { KeepsOtherRoom name.now entries.old.items entries.new.items }
    ensures refused { OnErr result (room_of entries.new.items name.now
        ≡ room_of entries.old.items name.now) }
{
    match place_of(entries, name) {
        Some(place) => {
            let entry = &mut entries[place];
            entry.grow(size)
        }
        None => {
            let entry = Entry::new(alloc, name, size)?;
            entries.push(entry)?;
            Ok(())
        }
    }
}

/// Makes the name's file empty, where room was made for it, and gives its place.
pub(crate) fn clear_named(entries: &mut Vec<Entry>, name: &[u8]) -> Option<usize>
    ensures file { IfSome result
        (λ place. SetsFile name.now [] (told entries.old.items) (told entries.new.items)) }
    ensures placed { IfSome result
        (λ place. is_placed (InUse.Writing place) entries.new.items ≡ true) }
    ensures name { IfSome result
        (λ place. name_of (InUse.Writing place) entries.new.items ≡ Some name.now) }
    ensures none { IfNone result (entries.new ≡ entries.old) }
    ensures exact { is_some result ≡ is_some (room_of entries.old.items name.now) }
    ensures room { KeepsRoom entries.old.items entries.new.items }
{
    let place = place_of(entries, name)?;
    let entry = &mut entries[place];
    entry.clear();
    Some(place)
}

/// The place of the name's file, where there is one, to be read from its start.
pub(crate) fn open_named(entries: &[Entry], name: &[u8]) -> Option<usize>
    ensures none { IfNone result (files_of entries.now name.now ≡ None) }
    ensures some { IfSome result (λ place. IsSome (files_of entries.now name.now)
        × (rest_from entries.now place 0 ≡ files_of entries.now name.now)) }
    ensures placed { IfSome result (λ place. is_placed (InUse.Reading place 0) entries.now ≡ true) }
{
    let place = place_of(entries, name)?;
    let entry = &entries[place];
    if entry.there() { Some(place) } else { None }
}

/// Sets the name's file, for which there is room.
pub(crate) fn set_named(entries: &mut Vec<Entry>, name: &[u8], bytes: &[u8])
    requires { MatchOption (room_of entries.old.items name.now) ⊥
        (λ room. length bytes.now ≤ room) }
    ensures file { SetsFile name.now bytes.now (told entries.old.items) (told entries.new.items) }
    ensures room { KeepsRoom entries.old.items entries.new.items }
{
    if let Some(place) = place_of(entries, name) {
        let entry = &mut entries[place];
        entry.clear();
        let _ = entry.append(bytes);
    }
}

/// Copies what follows a place of the file to the front of the buffer, as much as both have, and
/// gives the number of bytes.
pub(crate) fn read_entry(entries: &[Entry], file: usize, at: usize, buf: &mut [u8]) -> usize
    requires placed { is_placed (InUse.Reading file at) entries.now ≡ true }
    requires room { 0 < length buf.old }
    ensures bound { result ≤ length buf.new }
    ensures bytes { Consumes (rest_from entries.now file at)
        (rest_from entries.now file (at + result)) (take result buf.new) }
    ensures end { result ≡ 0 → IsAtEnd (rest_from entries.now file (at + result)) }
    ensures count { IfSome (rest_from entries.now file at)
        (λ rest. result ≡ min (length rest) (length buf.old)) }
    ensures placed { is_placed (InUse.Reading file (at + result)) entries.now ≡ true }
{
    let entry = &entries[file];
    copy_front(entry.bytes(), at, buf)
}

/// Puts as many bytes behind the file as there is room for, and gives their number.
pub(crate) fn append_entry(entries: &mut Vec<Entry>, file: usize, bytes: &[u8]) -> usize
    requires { is_placed (InUse.Writing file) entries.old.items ≡ true }
    ensures bound { result ≤ length bytes.now }
    ensures file { AppendsFile (name_at entries.old.items file) (told entries.old.items)
        (told entries.new.items) (take result bytes.now) }
    ensures none { result ≡ 0 → KeepsFiles (told entries.old.items) (told entries.new.items) }
    ensures count { result ≡ min (length bytes.now) (room_at entries.old.items file) }
    ensures placed { is_placed (InUse.Writing file) entries.new.items ≡ true }
    ensures name { name_at entries.new.items file ≡ name_at entries.old.items file }
    ensures room { KeepsRoom entries.old.items entries.new.items }
{
    let entry = &mut entries[file];
    entry.append(bytes)
}
