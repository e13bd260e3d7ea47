//! The files of the system, of which one at a time is in use.
ghost use Rattle.std.specs.Prelude.{◌≡◌, ◌<◌, None};
ghost use Rattle.sx_edge.specs.Shelf.{idle};
ghost use Rattle.sux.specs.RealFiles.{use_of, rest_of};

use crate::retry::{read_some, write_some};
use std::fs::{File, Files};
use std::io::{ErrorKind, Read, Write};
use sx_edge::shelf::Shelf;
use sx_edge::source::Failed;

/// The file in use.
#[derive(Drop)]
enum InUse<F: Drop> {
    Idle,
    Reading { file: F },
    Writing { file: F },
}

/// The files of the system. Of what they hold a proof knows what an open file tells.
#[derive(Drop)]
pub struct RealShelf<R: Files + Drop> {
    host: R,
    used: InUse<R::File>,
    faults: u64,
}

impl<R: Files + Drop> RealShelf<R> {
    /// A shelf that has no file in use and hasn't failed.
    pub fn new(host: R) -> RealShelf<R>
        ensures idle { use_of result.used ≡ idle }
        ensures faults { result.faults ≡ 0 }
    {
        RealShelf {
            host,
            used: InUse::Idle,
            faults: 0,
        }
    }
}

impl<R: Files + Drop> Shelf for RealShelf<R> {
    ghost in_use = { λ s. use_of s.used };

    ghost files = { λ _. None };

    ghost rest = { λ s. rest_of R.File.remaining s.used };

    ghost writing_to = { λ _. None };

    ghost faults = { λ s. s.faults };

    fn open_file(&mut self, name: &str) -> Result<bool, Failed> {
        match File::open(&self.host, name) {
            Ok(file) => {
                self.used = InUse::Reading { file };
                Ok(true)
            }
            Err(e) if e.kind() == ErrorKind::NotFound => Ok(false),
            Err(_) => {
                self.faults = self.faults.saturating_add(1);
                Err(Failed)
            }
        }
    }

    fn read(&mut self, buf: &mut [u8]) -> Result<usize, Failed> {
        if let InUse::Reading { file } = &mut self.used {
            if let Ok(count) = read_some(file, buf) {
                return Ok(count);
            }
        }
        self.faults = self.faults.saturating_add(1);
        Err(Failed)
    }

    fn create(&mut self, name: &str) -> Result<(), Failed> {
        match File::create(&self.host, name) {
            Ok(file) => {
                self.used = InUse::Writing { file };
                Ok(())
            }
            Err(_) => {
                self.faults = self.faults.saturating_add(1);
                Err(Failed)
            }
        }
    }

    fn write(&mut self, buf: &[u8]) -> Result<usize, Failed> {
        if let InUse::Writing { file } = &mut self.used {
            if let Ok(count) = write_some(file, buf) {
                return Ok(count);
            }
        }
        self.faults = self.faults.saturating_add(1);
        Err(Failed)
    }

    fn close(&mut self) -> Result<(), Failed> {
        self.used = InUse::Idle;
        Ok(())
    }
}

#[cfg(test)]
mod tests;
