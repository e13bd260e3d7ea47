//! A sink in memory.
ghost use Rattle.std.specs.Prelude.{◌≡◌, ◌<◌, ◌≤◌, ◌+◌, ◌-◌, ◌++◌, ◌||◌, ◌==◌, [], Some, length, take, min, IfOk, OnOk, OnErr, is_err};
ghost use Rattle.std.specs.Io.KnownBytes.{Appends, Keeps};
ghost use Rattle.sx_spec.specs.Causes.{HasCause};
ghost use Rattle.sx_memory.specs.Calls.{called, refused, is_due};

use crate::calls::Calls;
use crate::copies::put_behind;
use std::alloc::{AllocError, Global};
use sx_edge::sink::Sink;
use sx_edge::source::Failed;

/// Keeps the bytes that it is given, as many as it has room for, and fails at the calls that it is
/// told.
#[derive(Drop)]
pub struct MemSink {
    // As long as there is room; the first `len` bytes are those written.
    slots: Vec<u8>,
    len: usize,
    piece: usize,
    calls: Calls,
    ghost within: { len ≤ length slots.items },
    ghost some: { 1 ≤ piece },
}

impl MemSink {
    ghost use Rattle.sx_memory.specs.Memory.{bytes_written, sink_room};

    /// Takes at most `piece` bytes a call and `room` in all, and fails at the calls of the numbers
    /// `fails`, counted from 1, and where the room is used up. All its memory is taken here.
    pub fn new(
        alloc: Global,
        room: usize,
        piece: usize,
        fails: Vec<u64>,
    ) -> Result<MemSink, AllocError>
        requires { 1 ≤ piece }
        ensures written { IfOk result (λ sink. bytes_written sink ≡ []) }
        ensures room { IfOk result (λ sink. sink_room sink ≡ room) }
        ensures piece { IfOk result (λ sink. sink.piece ≡ piece) }
        ensures fails { IfOk result (λ sink. sink.calls.fails ≡ fails) }
        ensures calls { IfOk result (λ sink. sink.calls.made ≡ 0) }
        ensures faults { IfOk result (λ sink. sink.calls.faults ≡ 0) }
    {
        let slots = vec![in alloc; 0u8; room]?;
        Ok(MemSink {
            slots,
            len: 0,
            piece,
            calls: Calls::new(fails),
        })
    }

    /// The bytes written.
    pub fn bytes(&self) -> &[u8]
        ensures { result.now ≡ bytes_written self.now }
    {
        &self.slots[..self.len]
    }

    /// How often `write` was called, up to 2^64 - 1.
    pub fn calls(&self) -> u64
        ensures { result ≡ self.now.calls.made }
    {
        self.calls.made()
    }
}

impl Sink for MemSink {
    ghost use Rattle.sx_memory.specs.Memory.{told, sink_room};

    ghost written = { λ s. Some (take s.len s.slots.items) };

    ghost faults = { λ s. s.calls.faults };

    fn write(&mut self, buf: &[u8]) -> Result<usize, Failed>
        requires { 0 < length buf.now }
        ensures bound { IfOk result (λ count. (1 ≤ count) × (count ≤ length buf.now)) }
        ensures bytes { IfOk result
            (λ count. Appends (told self.old) (told self.new) (take count buf.now)) }
        ensures failed { OnErr result (Keeps (told self.old) (told self.new)) }
        ensures cause { HasCause self.old.calls.faults self.new.calls.faults result }
        ensures count { IfOk result (λ count. count ≡ min (min (length buf.now) self.old.piece)
            (sink_room self.old - self.old.len)) }
        ensures exact { is_err result
            ≡ (is_due self.old.calls || self.old.len == sink_room self.old) }
        ensures calls { OnOk result (self.new.calls ≡ called self.old.calls) }
        ensures refused { OnErr result (self.new.calls ≡ refused self.old.calls) }
        ensures room { length self.new.slots.items ≡ length self.old.slots.items }
        ensures piece { self.new.piece ≡ self.old.piece }
    {
        self.calls.make()?;
        let count = buf.len().min(self.piece).min(self.slots.len() - self.len);
        if count == 0 {
            return Err(self.calls.fail());
        }
        put_behind(&mut self.slots, self.len, &buf[..count]);
        self.len += count;
        Ok(count)
    }
}
