//! A source and a sink in memory that never fail.
ghost use Rattle.std.specs.Prelude.{◌≡◌, ◌<◌, ◌≤◌, ◌+◌, ◌-◌, ◌^◌, None, Some, Ok, length, drop, take, min, IfOk, OnErr};
ghost use Rattle.std.specs.Io.{ReadsAtMost};
ghost use Rattle.std.specs.Io.KnownBytes.{Appends, Keeps, ReadConsumes};
ghost use Rattle.sx_spec.specs.Causes.{HasCause};

use crate::copies::copy_front;
use sx_edge::sink::Sink;
use sx_edge::source::{Failed, Source};

/// Gives its bytes, and never fails.
#[derive(Drop)]
pub struct CalmSource {
    bytes: Vec<u8>,
    at: usize,
    ghost within: { at ≤ length bytes.items },
}

impl CalmSource {
    /// Nothing was read yet.
    pub fn new(bytes: Vec<u8>) -> CalmSource
        ensures { drop result.at result.bytes.items ≡ bytes.items }
    {
        CalmSource { bytes, at: 0 }
    }
}

impl Source for CalmSource {
    ghost use Rattle.sx_memory.specs.Memory.{calm_left};

    ghost left = { λ s. Some (drop s.at s.bytes.items) };

    ghost faults = { λ _. 0 };

    fn read(&mut self, buf: &mut [u8]) -> Result<usize, Failed>
        requires { 0 < length buf.old }
        ensures bound { ReadsAtMost result buf.new }
        ensures bytes { ReadConsumes (Some (calm_left self.old)) (Some (calm_left self.new)) result
            buf.new }
        ensures cause { HasCause 0 0 result }
        ensures calm { result ≡ Ok (min (length (calm_left self.old)) (length buf.old)) }
    {
        let count = copy_front(&self.bytes, self.at, buf);
        self.at += count;
        Ok(count)
    }
}

/// Counts the bytes that it is given, and keeps nothing else. It never fails.
#[derive(Drop)]
pub struct CountSink {
    count: u64,
}

impl CountSink {
    /// Nothing was written yet.
    pub fn new() -> CountSink
        ensures { result.count ≡ 0 }
    {
        CountSink { count: 0 }
    }

    /// How many bytes were written, up to 2^64 - 1.
    pub fn count(&self) -> u64
        ensures { result ≡ self.now.count }
    {
        self.count
    }
}

impl Sink for CountSink {
    ghost written = { λ _. None };

    ghost faults = { λ _. 0 };

    fn write(&mut self, buf: &[u8]) -> Result<usize, Failed>
        requires { 0 < length buf.now }
        ensures bound { IfOk result (λ count. (1 ≤ count) × (count ≤ length buf.now)) }
        ensures bytes { IfOk result (λ count. Appends None None (take count buf.now)) }
        ensures failed { OnErr result (Keeps None None) }
        ensures cause { HasCause 0 0 result }
        ensures calm { result ≡ Ok (length buf.now) }
        ensures count { self.new.count ≡ min (self.old.count + length buf.now) (2 ^ 64 - 1) }
    {
        self.count = self.count.saturating_add(buf.len() as u64);
        Ok(buf.len())
    }
}
