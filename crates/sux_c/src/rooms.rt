//! What a hollow trie is answered by beside the words of its dump, in room of the caller's.

ghost use Rattle.std.specs.Prelude.{◌≡◌, ◌<◌, IfErr, IfOk, length};
ghost use Rattle.sx_dump.specs.Rooms.{room_words};
ghost use Rattle.sux_c.specs.Rooms.{WantsWords, rooms_in};

use sx_dump::{Directories, TrieRooms};
use sx_fields::bank::Words;

/// The directories of the two lists of a hollow trie, three each, and the nodes that are kept. Of a
/// dump of any other kind they are empty.
#[repr(C)]
#[derive(Clone, Copy)]
pub struct SuxRooms<'a> {
    pub left_directory: &'a [u64],
    pub left_groups: &'a [u64],
    pub left_places: &'a [u64],
    pub skip_directory: &'a [u64],
    pub skip_groups: &'a [u64],
    pub skip_places: &'a [u64],
    pub top: &'a [u64],
}

/// A number of words, as one of 128 bits, in which no sum of seven overflows.
fn wide(count: usize) -> u128
    ensures { result ≡ count }
{
    count as u64 as u128
}

/// How many words the rooms take.
fn size_of(rooms: &TrieRooms<Vec<u64>>) -> u128
    ensures { WantsWords (room_words rooms.now (λ v. v.items)) result }
{
    let left = wide(rooms.left.directory.len())
        + wide(rooms.left.groups.len())
        + wide(rooms.left.places.len());
    let skip = wide(rooms.skip.directory.len())
        + wide(rooms.skip.groups.len())
        + wide(rooms.skip.places.len());
    left + skip + wide(rooms.top.len())
}

impl<'a> SuxRooms<'a> {
    /// Those of a dump that has none.
    pub fn none() -> SuxRooms<'a> {
        SuxRooms {
            left_directory: &[],
            left_groups: &[],
            left_places: &[],
            skip_directory: &[],
            skip_groups: &[],
            skip_places: &[],
            top: &[],
        }
    }

    /// Rooms, copied to the front of room of the caller's.
    ///
    /// # Errors
    /// How many words they take, where there is room for fewer.
    pub fn of(rooms: &TrieRooms<Vec<u64>>, room: &'a mut [u64]) -> Result<SuxRooms<'a>, u128>
        ensures rooms { IfOk result (λ r. rooms_in r ≡ room_words rooms.now (λ v. v.items)) }
        ensures wants { IfErr result (WantsWords (room_words rooms.now (λ v. v.items))) }
        ensures short { IfErr result (λ wanted. length room.old < wanted) }
    {
        let wanted = size_of(rooms);
        if wide(room.len()) < wanted {
            return Err(wanted);
        }
        let (left_directory, room) = room.split_at_mut(rooms.left.directory.len());
        left_directory.copy_from_slice(&rooms.left.directory);
        let (left_groups, room) = room.split_at_mut(rooms.left.groups.len());
        left_groups.copy_from_slice(&rooms.left.groups);
        let (left_places, room) = room.split_at_mut(rooms.left.places.len());
        left_places.copy_from_slice(&rooms.left.places);
        let (skip_directory, room) = room.split_at_mut(rooms.skip.directory.len());
        skip_directory.copy_from_slice(&rooms.skip.directory);
        let (skip_groups, room) = room.split_at_mut(rooms.skip.groups.len());
        skip_groups.copy_from_slice(&rooms.skip.groups);
        let (skip_places, room) = room.split_at_mut(rooms.skip.places.len());
        skip_places.copy_from_slice(&rooms.skip.places);
        let (top, _) = room.split_at_mut(rooms.top.len());
        top.copy_from_slice(&rooms.top);
        Ok(SuxRooms {
            left_directory,
            left_groups,
            left_places,
            skip_directory,
            skip_groups,
            skip_places,
            top,
        })
    }

    /// The rooms, where they lie.
    pub fn to_rooms(&self) -> TrieRooms<Words<'a>>
        ensures { room_words result (λ w. w.words.now) ≡ rooms_in self.now }
    {
        TrieRooms {
            left: Directories {
                directory: Words::new(self.left_directory),
                groups: Words::new(self.left_groups),
                places: Words::new(self.left_places),
            },
            skip: Directories {
                directory: Words::new(self.skip_directory),
                groups: Words::new(self.skip_groups),
                places: Words::new(self.skip_places),
            },
            top: Words::new(self.top),
        }
    }
}
