//! A shelf of files in memory.
ghost use Rattle.std.specs.Prelude.{◌≡◌, ◌≢◌, ◌+◌, ◌<◌, ◌≤◌, ◌⊎◌, ◌||◌, ◌==◌, ℕ, List, [], true, false, not, Option, Some, None, Ok, Err, length, take, drop, ◌++◌, min, max, unwrap_or, IfSome, IfOk, OnOk, OnErr, IsSome, is_some, is_err, MatchOption};
ghost use Rattle.std.specs.Io.{ReadsAtMost};
ghost use Rattle.std.specs.Io.KnownBytes.{ReadConsumes};
ghost use Rattle.sx_spec.specs.Causes.{HasCause};
ghost use Rattle.sx_spec.specs.World.{KeepsFiles, SetsFile};
ghost use Rattle.sx_memory.specs.Calls.{called, refused, is_due};
ghost use Rattle.sx_edge.specs.Shelf.{idle, reading, writing, Opens, IsAbsent, AppendsFile};
ghost use Rattle.sx_memory.specs.Entries.{files_of, room_of};
ghost use Rattle.sx_memory.specs.InUse.{is_placed, use_of, rest_of, name_of, room_left};

use crate::calls::Calls;
use crate::entries::{
    append_entry, clear_named, file_named, make_room, open_named, read_entry, set_named,
};
use crate::entry::Entry;
use crate::in_use::InUse;
use std::alloc::{AllocError, Global};
use sx_edge::shelf::Shelf;
use sx_edge::source::Failed;

/// Files in memory, which takes no memory in a call of `Shelf`: room is made before. It fails at the
/// calls that it is told.
#[derive(Drop)]
pub struct MemShelf {
    alloc: Global,
    entries: Vec<Entry>,
    used: InUse,
    calls: Calls,
    ghost placed: { is_placed used entries.items ≡ true },
}

impl MemShelf {
    ghost use Rattle.sx_memory.specs.Shelves.{files_in, KeepsOtherRoom, MakesRoom};

    /// No files and no room. It fails at the calls of the numbers `fails`, counted from 1 over all
    /// five kinds of call, and where room is wanting.
    pub fn new(alloc: Global, fails: Vec<u64>) -> MemShelf
        ensures files { (name : List ℕ) → files_of result.entries.items name ≡ None }
        ensures room { (name : List ℕ) → room_of result.entries.items name ≡ None }
        ensures idle { use_of result.used ≡ idle }
        ensures fails { result.calls.fails ≡ fails }
        ensures calls { result.calls.made ≡ 0 }
        ensures faults { result.calls.faults ≡ 0 }
    {
        MemShelf {
            alloc,
            entries: Vec::new(alloc),
            used: InUse::Idle,
            calls: Calls::new(fails),
        }
    }

    /// Sets one file, and makes room for its bytes. After a refusal files and room are as before.
    pub fn put(&mut self, name: &str, bytes: &[u8]) -> Result<(), AllocError>
        requires { use_of self.old.used ≡ idle }
        ensures set { OnOk result (SetsFile name.now bytes.now (files_in self.old)
            (files_in self.new)) }
        ensures room { OnOk result (MakesRoom name.now (length bytes.now) self.old.entries.items
            self.new.entries.items) }
        ensures others { KeepsOtherRoom name.now self.old.entries.items self.new.entries.items }
        ensures refused { OnErr result (KeepsFiles (files_in self.old) (files_in self.new)
            × (room_of self.new.entries.items name.now ≡ room_of self.old.entries.items name.now)) }
        ensures idle { use_of self.new.used ≡ idle }
        ensures calls { self.new.calls ≡ self.old.calls }
    {
        make_room(self.alloc, &mut self.entries, name.as_bytes(), bytes.len())?;
        set_named(&mut self.entries, name.as_bytes(), bytes);
        Ok(())
    }

    /// Makes room for `size` bytes under the name, where less was made. Files stay. After a refusal
    /// room is as before.
    pub fn room(&mut self, name: &str, size: usize) -> Result<(), AllocError>
        requires { use_of self.old.used ≡ idle }
        ensures files { KeepsFiles (files_in self.old) (files_in self.new) }
        ensures room { OnOk result (MakesRoom name.now size self.old.entries.items
            self.new.entries.items) }
        ensures others { KeepsOtherRoom name.now self.old.entries.items self.new.entries.items }
        ensures refused { OnErr result (room_of self.new.entries.items name.now
            ≡ room_of self.old.entries.items name.now) }
        ensures idle { use_of self.new.used ≡ idle }
        ensures calls { self.new.calls ≡ self.old.calls }
    {
        make_room(self.alloc, &mut self.entries, name.as_bytes(), size)
    }

    /// The bytes of the file. `None` where no file has the name.
    pub fn bytes(&self, name: &str) -> Option<&[u8]>
        ensures { MatchOption result (files_of self.now.entries.items name.now ≡ None)
            (λ bytes. files_of self.now.entries.items name.now ≡ Some bytes.now) }
    {
        file_named(&self.entries, name.as_bytes())
    }

    /// How many calls of `Shelf` were made, up to 2^64 - 1.
    pub fn calls(&self) -> u64
        ensures { result ≡ self.now.calls.made }
    {
        self.calls.made()
    }
}

impl Shelf for MemShelf {
    ghost use Rattle.sx_memory.specs.Shelves.{files_in, rest_in, name_in, room_in_use, KeepsRoom};

    ghost in_use = { λ s. use_of s.used };

    ghost files = { λ s. Some (files_of s.entries.items) };

    ghost rest = { λ s. rest_of s.used s.entries.items };

    ghost writing_to = { λ s. name_of s.used s.entries.items };

    ghost faults = { λ s. s.calls.faults };

    fn open_file(&mut self, name: &str) -> Result<bool, Failed>
        requires { use_of self.old.used ≡ idle }
        ensures found { result ≡ Ok true → (use_of self.new.used ≡ reading)
            × Opens name.now (files_in self.old) (rest_in self.new) }
        ensures absent { result ≡ Ok false → (use_of self.new.used ≡ idle)
            × IsAbsent name.now (files_in self.old) }
        ensures failed { OnErr result (use_of self.new.used ≡ idle) }
        ensures files { KeepsFiles (files_in self.old) (files_in self.new) }
        ensures cause { HasCause self.old.calls.faults self.new.calls.faults result }
        ensures exact { is_err result ≡ is_due self.old.calls }
        ensures entries { self.new.entries ≡ self.old.entries }
        ensures calls { self.new.calls ≡ called self.old.calls }
    {
        self.calls.make()?;
        match open_named(&self.entries, name.as_bytes()) {
            Some(file) => {
                self.used = InUse::Reading { file, at: 0 };
                Ok(true)
            }
            None => Ok(false),
        }
    }

    fn read(&mut self, buf: &mut [u8]) -> Result<usize, Failed>
        requires reading { use_of self.old.used ≡ reading }
        requires room { 0 < length buf.old }
        ensures bound { ReadsAtMost result buf.new }
        ensures count { IfOk result (λ count. IfSome (rest_in self.old)
            (λ rest. count ≡ min (length rest) (length buf.old))) }
        ensures bytes { ReadConsumes (rest_in self.old) (rest_in self.new) result buf.new }
        ensures stays { use_of self.new.used ≡ reading }
        ensures files { KeepsFiles (files_in self.old) (files_in self.new) }
        ensures cause { HasCause self.old.calls.faults self.new.calls.faults result }
        ensures exact { is_err result ≡ is_due self.old.calls }
        ensures entries { self.new.entries ≡ self.old.entries }
        ensures calls { self.new.calls ≡ called self.old.calls }
    {
        self.calls.make()?;
        match self.used {
            InUse::Reading { file, at } => {
                let count = read_entry(&self.entries, file, at, buf);
                self.used = InUse::Reading {
                    file,
                    at: at + count,
                };
                Ok(count)
            }
            _ => unreachable!(),
        }
    }

    fn create(&mut self, name: &str) -> Result<(), Failed>
        requires { use_of self.old.used ≡ idle }
        ensures made { OnOk result ((use_of self.new.used ≡ writing)
            × SetsFile name.now [] (files_in self.old) (files_in self.new)) }
        ensures named { OnOk result
            (IsSome (files_in self.old) → name_in self.new ≡ Some name.now) }
        ensures failed { OnErr result ((use_of self.new.used ≡ idle)
            × (KeepsFiles (files_in self.old) (files_in self.new)
            ⊎ SetsFile name.now [] (files_in self.old) (files_in self.new))) }
        ensures cause { HasCause self.old.calls.faults self.new.calls.faults result }
        ensures exact { is_err result
            ≡ (is_due self.old.calls || not (is_some (room_of self.old.entries.items name.now))) }
        ensures room { KeepsRoom self.old.entries.items self.new.entries.items }
        ensures calls { OnOk result (self.new.calls ≡ called self.old.calls) }
        ensures refused { OnErr result (self.new.calls ≡ refused self.old.calls) }
        ensures kept { OnErr result (self.new.entries ≡ self.old.entries) }
    {
        self.calls.make()?;
        match clear_named(&mut self.entries, name.as_bytes()) {
            Some(file) => {
                self.used = InUse::Writing { file };
                Ok(())
            }
            None => Err(self.calls.fail()),
        }
    }

    fn write(&mut self, buf: &[u8]) -> Result<usize, Failed>
        requires writing { use_of self.old.used ≡ writing }
        requires some { 0 < length buf.now }
        ensures bound { IfOk result (λ count. (1 ≤ count) × (count ≤ length buf.now)) }
        ensures count { IfOk result (λ count. count ≡ min (length buf.now) (room_in_use self.old)) }
        ensures bytes { IfOk result (λ count. AppendsFile (name_in self.old) (files_in self.old)
            (files_in self.new) (take count buf.now)) }
        ensures failed { OnErr result (KeepsFiles (files_in self.old) (files_in self.new)) }
        ensures stays { use_of self.new.used ≡ writing }
        ensures same { name_in self.new ≡ name_in self.old }
        ensures cause { HasCause self.old.calls.faults self.new.calls.faults result }
        ensures exact { is_err result ≡ (is_due self.old.calls || room_in_use self.old == 0) }
        ensures room { KeepsRoom self.old.entries.items self.new.entries.items }
        ensures calls { OnOk result (self.new.calls ≡ called self.old.calls) }
        ensures refused { OnErr result (self.new.calls ≡ refused self.old.calls) }
    {
        self.calls.make()?;
        match self.used {
            InUse::Writing { file } => {
                let count = append_entry(&mut self.entries, file, buf);
                if count == 0 {
                    return Err(self.calls.fail());
                }
                Ok(count)
            }
            _ => unreachable!(),
        }
    }

    fn close(&mut self) -> Result<(), Failed>
        requires { use_of self.old.used ≢ idle }
        ensures idle { use_of self.new.used ≡ idle }
        ensures files { KeepsFiles (files_in self.old) (files_in self.new) }
        ensures cause { HasCause self.old.calls.faults self.new.calls.faults result }
        ensures exact { is_err result ≡ is_due self.old.calls }
        ensures entries { self.new.entries ≡ self.old.entries }
        ensures calls { self.new.calls ≡ called self.old.calls }
    {
        self.used = InUse::Idle;
        self.calls.make()
    }
}
