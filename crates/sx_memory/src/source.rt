//! A source in memory.
ghost use Rattle.std.specs.Prelude.{◌≡◌, ◌<◌, ◌≤◌, Some, length, drop, min, IfOk, is_err};
ghost use Rattle.std.specs.Io.{ReadsAtMost};
ghost use Rattle.std.specs.Io.KnownBytes.{ReadConsumes};
ghost use Rattle.sx_spec.specs.Causes.{HasCause};
ghost use Rattle.sx_memory.specs.Calls.{called, is_due};

use crate::calls::Calls;
use sx_edge::source::{Failed, Source};

/// Gives its bytes in pieces, and fails at the calls that it is told.
#[derive(Drop)]
pub struct MemSource {
    bytes: Vec<u8>,
    at: usize,
    piece: usize,
    calls: Calls,
    ghost within: { at ≤ length bytes.items },
    ghost some: { 1 ≤ piece },
}

impl MemSource {
    ghost use Rattle.sx_memory.specs.Memory.{bytes_left};

    /// Gives at most `piece` bytes a call, and fails at the calls of the numbers `fails`, counted
    /// from 1.
    pub fn new(bytes: Vec<u8>, piece: usize, fails: Vec<u64>) -> MemSource
        requires { 1 ≤ piece }
        ensures left { bytes_left result ≡ bytes.items }
        ensures piece { result.piece ≡ piece }
        ensures fails { result.calls.fails ≡ fails }
        ensures calls { result.calls.made ≡ 0 }
        ensures faults { result.calls.faults ≡ 0 }
    {
        MemSource {
            bytes,
            at: 0,
            piece,
            calls: Calls::new(fails),
        }
    }

    /// The bytes that are left.
    pub fn left(&self) -> &[u8]
        ensures { result.now ≡ bytes_left self.now }
    {
        &self.bytes[self.at..]
    }

    /// How often `read` was called, up to 2^64 - 1.
    pub fn calls(&self) -> u64
        ensures { result ≡ self.now.calls.made }
    {
        self.calls.made()
    }
}

impl Source for MemSource {
    ghost use Rattle.sx_memory.specs.Memory.{bytes_left};

    ghost left = { λ s. Some (drop s.at s.bytes.items) };

    ghost faults = { λ s. s.calls.faults };

    fn read(&mut self, buf: &mut [u8]) -> Result<usize, Failed>
        requires { 0 < length buf.old }
        ensures bound { ReadsAtMost result buf.new }
        ensures bytes { ReadConsumes (Some (bytes_left self.old)) (Some (bytes_left self.new))
            result buf.new }
        ensures cause { HasCause self.old.calls.faults self.new.calls.faults result }
        ensures count { IfOk result (λ count. count ≡ min
            (min (length (bytes_left self.old)) self.old.piece) (length buf.old)) }
        ensures exact { is_err result ≡ is_due self.old.calls }
        ensures calls { self.new.calls ≡ called self.old.calls }
        ensures piece { self.new.piece ≡ self.old.piece }
    {
        self.calls.make()?;
        let rest = self.bytes.len() - self.at;
        let count = rest.min(self.piece).min(buf.len());
        buf[..count].copy_from_slice(&self.bytes[self.at..self.at + count]);
        self.at += count;
        Ok(count)
    }
}
