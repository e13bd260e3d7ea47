//! Text that is gathered before it is written.
ghost use Rattle.std.specs.Prelude.{◌≡◌, ◌+◌, ◌≤◌, ◌++◌, ℕ, Option, [], IfOk, OnOk, OnErr, length, decimal};
ghost use Rattle.sx_spec.specs.Causes.{HasCause};
ghost use Rattle.sx_edge.specs.Parts.{AppendsPrefix};
ghost use Rattle.sx_spec.specs.Reply.{reply_number, reply_text};
ghost use Rattle.std.specs.Fmt.{signed_decimal};
ghost use Rattle.std.specs.Io.KnownBytes.{Appends};

use itoa::Buffer;
use std::alloc::{AllocError, Global};
use std::marker::Model;
use sx_edge::sink::{Sink, write_all};
use sx_edge::source::Failed;

/// How many bytes the buffer has room for.
pub const ROOM: usize = 65536;

/// How many bytes a reply and its line feed take at most.
const LONGEST: usize = 42;

/// Text of at most 65,536 bytes. All its memory is taken at once.
#[derive(Drop)]
pub struct TextBuffer {
    bytes: Vec<u8>,
}

impl Model for TextBuffer {
    ghost use Rattle.std.specs.Prelude.{◌≤◌, List, ℕ, vec_len, vec_capacity};

    ghost Value = { List ℕ };

    ghost view = { λ a. a.bytes.items };

    ghost invariant = { λ a. (65536 ≤ vec_capacity a.bytes) × (vec_len a.bytes ≤ 65536) };
}

impl TextBuffer {
    ghost use Rattle.std.specs.Prelude.{◌<◌, ◌↔◌, IsTrue};

    /// An empty buffer.
    pub fn new(alloc: Global) -> Result<TextBuffer, AllocError>
        ensures { IfOk result (λ buffer. buffer ≡ []) }
    {
        let bytes = Vec::with_capacity(alloc, ROOM)?;
        Ok(TextBuffer { bytes })
    }

    /// Whether a further number with its line feed may find no room.
    #[inline(always)]
    pub fn is_full(&self) -> bool
        ensures { IsTrue result ↔ (65494 < length self.now) }
    {
        self.bytes.len() > ROOM - LONGEST
    }

    /// The text so far.
    pub fn as_slice(&self) -> &[u8]
        ensures { result.now ≡ self.now }
    {
        &self.bytes
    }

    /// Puts bytes at the end, for which there is room.
    #[inline(always)]
    pub fn push(&mut self, bytes: &[u8])
        requires { length self.old + length bytes.now ≤ 65536 }
        ensures { self.new ≡ self.old ++ bytes.now }
    {
        let Ok(()) = self.bytes.extend_from_slice(bytes) else {
            unreachable!();
        };
    }

    /// Puts a number at the end, in decimal. There is room for 20 bytes.
    #[inline(always)]
    pub fn push_number(&mut self, number: u64)
        requires { length self.old + 20 ≤ 65536 }
        ensures value { self.new ≡ self.old ++ decimal number }
        ensures short { length self.new ≤ length self.old + 20 }
    {
        let mut buffer = Buffer::new();
        self.push(buffer.format(number).as_bytes());
    }

    /// Puts a reply at the end, in decimal. There is room for 41 bytes.
    #[inline(always)]
    pub fn push_reply(&mut self, reply: i128)
        requires room { length self.old + 41 ≤ 65536 }
        ensures text { self.new ≡ self.old ++ signed_decimal reply }
        ensures value { (r : Option ℕ)
            → reply ≡ reply_number r → self.new ≡ self.old ++ reply_text r }
        ensures short { length self.new ≤ length self.old + 41 }
    {
        match u64::try_from(reply) {
            Ok(number) => self.push_number(number),
            Err(_) => self.push_wide(reply),
        }
    }

    // A reply that isn't a number of 64 bits.
    fn push_wide(&mut self, reply: i128)
        requires { length self.old + 41 ≤ 65536 }
        ensures text { self.new ≡ self.old ++ signed_decimal reply }
        ensures value { (r : Option ℕ)
            → reply ≡ reply_number r → self.new ≡ self.old ++ reply_text r }
        ensures short { length self.new ≤ length self.old + 41 }
    {
        let mut buffer = Buffer::new();
        self.push(buffer.format(reply).as_bytes());
    }

    /// Writes the text and begins anew. After a failure a prefix of it was written, and all of it is still held.
    pub fn write_to<K: Sink>(&mut self, sink: &mut K) -> Result<(), Failed>
        ensures empty { OnOk result (self.new ≡ []) }
        ensures held { OnErr result (self.new ≡ self.old) }
        ensures ok { OnOk result (Appends (K.written sink.old) (K.written sink.new) self.old) }
        ensures failed { OnErr result
            (AppendsPrefix (K.written sink.old) (K.written sink.new) self.old) }
        ensures cause { HasCause (K.faults sink.old) (K.faults sink.new) result }
    {
        write_all(sink, &self.bytes)?;
        self.bytes.clear();
        Ok(())
    }
}
