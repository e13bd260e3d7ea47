//! Standard input, output and error. What they hold is known to a proof where the stream tells it.
ghost use Rattle.std.specs.Prelude.{◌≡◌, ◌<◌};

use crate::retry::{read_some, write_some};
use std::io::{Read, Write};
use sx_edge::sink::Sink;
use sx_edge::source::{Failed, Source};

/// Bytes that are read from a stream.
#[derive(Drop)]
pub struct InputStream<R: Read + Drop> {
    stream: R,
    faults: u64,
}

impl<R: Read + Drop> InputStream<R> {
    /// A stream that hasn't failed.
    pub fn new(stream: R) -> InputStream<R>
        ensures stream { result.stream ≡ stream }
        ensures faults { result.faults ≡ 0 }
    {
        InputStream { stream, faults: 0 }
    }
}

impl<R: Read + Drop> Source for InputStream<R> {
    ghost left = { λ s. R.remaining s.stream };

    ghost faults = { λ s. s.faults };

    fn read(&mut self, buf: &mut [u8]) -> Result<usize, Failed> {
        match read_some(&mut self.stream, buf) {
            Ok(count) => Ok(count),
            Err(Failed) => {
                self.faults = self.faults.saturating_add(1);
                Err(Failed)
            }
        }
    }
}

/// Bytes that are written to a stream.
#[derive(Drop)]
pub struct OutputStream<W: Write + Drop> {
    stream: W,
    faults: u64,
}

impl<W: Write + Drop> OutputStream<W> {
    /// A stream that hasn't failed.
    pub fn new(stream: W) -> OutputStream<W>
        ensures stream { result.stream ≡ stream }
        ensures faults { result.faults ≡ 0 }
    {
        OutputStream { stream, faults: 0 }
    }
}

impl<W: Write + Drop> Sink for OutputStream<W> {
    ghost written = { λ s. W.contents s.stream };

    ghost faults = { λ s. s.faults };

    fn write(&mut self, buf: &[u8]) -> Result<usize, Failed> {
        match write_some(&mut self.stream, buf) {
            Ok(count) => Ok(count),
            Err(Failed) => {
                self.faults = self.faults.saturating_add(1);
                Err(Failed)
            }
        }
    }
}

#[cfg(test)]
mod tests;
