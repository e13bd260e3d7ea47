//! The files of a shelf in memory.
ghost use Rattle.std.specs.Prelude.{◌≡◌, ◌≤◌, ◌+◌, ◌-◌, ◌++◌, [], true, false, length, take, min, max, IfOk, OnOk, OnErr};

use crate::copies::put_behind;
use std::alloc::{AllocError, Global};

/// A name with room for bytes, and the bytes of the file where there is one.
#[derive(Drop)]
pub(crate) struct Entry {
    name: Vec<u8>,
    // As long as there is room; the first `len` bytes are those of the file.
    buf: Vec<u8>,
    len: usize,
    there: bool,
    ghost within: { len ≤ length buf.items },
}

impl Entry {
    ghost use Rattle.sx_memory.specs.Entries.{bytes_of, bytes_in, room_in};

    /// Room under a name that has no file.
    pub(crate) fn new(alloc: Global, name: &[u8], size: usize) -> Result<Entry, AllocError>
        ensures name { IfOk result (λ e. e.name.items ≡ name.now) }
        ensures absent { IfOk result (λ e. e.there ≡ false) }
        ensures room { IfOk result (λ e. room_in e ≡ size) }
    {
        let name = Vec::from_slice(alloc, name)?;
        let buf = vec![in alloc; 0u8; size]?;
        Ok(Entry {
            name,
            buf,
            len: 0,
            there: false,
        })
    }

    pub(crate) fn name(&self) -> &[u8]
        ensures { result.now ≡ self.now.name.items }
    {
        &self.name
    }

    pub(crate) fn there(&self) -> bool
        ensures { result ≡ self.now.there }
    {
        self.there
    }

    /// The bytes of the file, or those that one would grow behind.
    pub(crate) fn bytes(&self) -> &[u8]
        ensures { result.now ≡ bytes_in self.now }
    {
        &self.buf[..self.len]
    }

    /// Makes room for so many bytes. After a refusal all is as it was.
    pub(crate) fn grow(&mut self, size: usize) -> Result<(), AllocError>
        ensures name { self.new.name.items ≡ self.old.name.items }
        ensures there { self.new.there ≡ self.old.there }
        ensures bytes { bytes_in self.new ≡ bytes_in self.old }
        ensures room { OnOk result (room_in self.new ≡ max (room_in self.old) size) }
        ensures refused { OnErr result (room_in self.new ≡ room_in self.old) }
    {
        if self.buf.len() < size {
            self.buf.resize(size, 0)?;
        }
        Ok(())
    }

    /// Makes the file empty, also where none was there.
    pub(crate) fn clear(&mut self)
        ensures name { self.new.name.items ≡ self.old.name.items }
        ensures there { self.new.there ≡ true }
        ensures bytes { bytes_in self.new ≡ [] }
        ensures room { room_in self.new ≡ room_in self.old }
    {
        self.len = 0;
        self.there = true;
    }

    /// Puts as many of the bytes behind those of the file as there is room for, and gives their
    /// number.
    pub(crate) fn append(&mut self, bytes: &[u8]) -> usize
        ensures count { result
            ≡ min (length bytes.now) (room_in self.old - length (bytes_in self.old)) }
        ensures name { self.new.name.items ≡ self.old.name.items }
        ensures there { self.new.there ≡ self.old.there }
        ensures bytes { bytes_in self.new ≡ bytes_in self.old ++ take result bytes.now }
        ensures room { room_in self.new ≡ room_in self.old }
    {
        let count = bytes.len().min(self.buf.len() - self.len);
        put_behind(&mut self.buf, self.len, &bytes[..count]);
        self.len += count;
        count
    }
}
