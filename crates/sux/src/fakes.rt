//! Streams and files that follow a script, for tests.
ghost use Rattle.std.specs.Prelude.{◌≤◌, IfOk};

use std::alloc::Allocator;
use std::fs::{Files, Metadata, OpenFile, OpenOptions};
use std::io;
use std::io::{ErrorKind, Read, Seek, SeekFrom, Write};

/// What a call comes to.
#[derive(Clone, Copy)]
pub enum Turn {
    /// So many bytes go through, if there is room for them.
    Moves(usize),
    Fails(ErrorKind),
}

/// The turn of a call by its number, counted from 0. Behind the script each call is interrupted.
fn turn_at(turns: &[Turn], at: usize) -> Turn {
    match turns.get(at) {
        Some(turn) => *turn,
        None => Turn::Fails(ErrorKind::Interrupted),
    }
}

/// A stream that follows a script. It gives the bytes 1, 2, .. and lets go what it takes.
#[derive(Drop)]
pub struct Scripted {
    turns: &'static [Turn],
    /// How many calls were made.
    pub calls: usize,
    last: u8,
}

impl Scripted {
    pub fn new(turns: &'static [Turn]) -> Scripted {
        Scripted {
            turns,
            calls: 0,
            last: 0,
        }
    }

    fn turn(&mut self, room: usize) -> io::Result<usize>
        ensures { IfOk result (λ count. count ≤ room) }
    {
        let turn = turn_at(self.turns, self.calls);
        self.calls = self.calls.saturating_add(1);
        match turn {
            Turn::Moves(count) => Ok(count.min(room)),
            Turn::Fails(kind) => Err(io::Error::from(kind)),
        }
    }
}

impl Read for Scripted {
    fn read(&mut self, buf: &mut [u8]) -> io::Result<usize> {
        let count = self.turn(buf.len())?;
        for slot in &mut buf[..count] {
            self.last = self.last.saturating_add(1);
            *slot = self.last;
        }
        Ok(count)
    }
}

impl Write for Scripted {
    fn write(&mut self, buf: &[u8]) -> io::Result<usize> {
        self.turn(buf.len())
    }

    fn flush(&mut self) -> io::Result<()> {
        Ok(())
    }
}

fn refused<T>() -> io::Result<T> {
    Err(io::Error::from(ErrorKind::Unsupported))
}

impl Seek for Scripted {
    fn seek(&mut self, _: SeekFrom) -> io::Result<u64> {
        refused()
    }
}

impl OpenFile for Scripted {
    fn metadata(&self) -> io::Result<Metadata> {
        refused()
    }

    fn set_len(&self, _: u64) -> io::Result<()> {
        refused()
    }

    fn sync_all(&self) -> io::Result<()> {
        refused()
    }

    fn sync_data(&self) -> io::Result<()> {
        refused()
    }
}

/// Files of which each follows the same script, or none can be opened.
#[derive(Drop)]
pub struct ScriptedFiles {
    pub refuses: Option<ErrorKind>,
    pub turns: &'static [Turn],
}

impl Files for ScriptedFiles {
    type File = Scripted;

    type Dir = Scripted;

    fn open_file(&self, _: &OpenOptions, _: &str) -> io::Result<Scripted> {
        match self.refuses {
            Some(kind) => Err(io::Error::from(kind)),
            None => Ok(Scripted::new(self.turns)),
        }
    }

    fn open_dir(&self, _: &str) -> io::Result<Scripted> {
        refused()
    }

    fn metadata(&self, _: &str) -> io::Result<Metadata> {
        refused()
    }

    fn symlink_metadata(&self, _: &str) -> io::Result<Metadata> {
        refused()
    }

    fn copy(&self, _: &str, _: &str) -> io::Result<u64> {
        refused()
    }

    fn rename(&self, _: &str, _: &str) -> io::Result<()> {
        refused()
    }

    fn remove_file(&self, _: &str) -> io::Result<()> {
        refused()
    }

    fn create_dir(&self, _: &str) -> io::Result<()> {
        refused()
    }

    fn remove_dir(&self, _: &str) -> io::Result<()> {
        refused()
    }

    fn remove_dir_all<B: Allocator>(&self, _: B, _: &str) -> io::Result<()> {
        refused()
    }
}
