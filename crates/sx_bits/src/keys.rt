//! Lists of keys in strictly rising order, within limits.

ghost use Rattle.std.specs.Prelude.{◌≡◌, ◌≤◌, ◌<◌, ◌+◌, ◌^◌, [], ◌∷◌, ◌++◌, OnOk, OnErr, Some, length, slice_get, slice_index, vec_len};
ghost use Rattle.sx_bits.specs.Cuts.{cut, AreEnds};

use crate::fault::KeyFault;
use crate::pieces::Piece;
use crate::view::BitView;
use std::alloc::{AllocError, Global};
use std::cmp::Ordering;
use std::marker::Model;
use sx_spec::Limits;

/// Where piece `i` of pieces with these ends begins.
#[inline(always)]
fn start_of(ends: &[u32], i: usize) -> usize
    requires { i ≤ length ends.now }
    ensures { result ≡ slice_index (0 ∷ ends.now) i }
{
    if i == 0 { 0 } else { ends[i - 1] as usize }
}

/// Piece `i` of bytes that are cut at these ends.
#[inline(always)]
fn piece_of<'a>(bytes: &'a [u8], ends: &[u32], i: usize) -> &'a [u8]
    requires cut { AreEnds 0 ends.now (length bytes.now) }
    requires within { i < length ends.now }
    ensures { slice_get (cut 0 ends.now bytes.now) i ≡ Some result.now }
{
    let start = start_of(ends, i);
    let end = ends[i] as usize;
    &bytes[start..end]
}

/// Puts the line behind the bytes, and its end behind the ends. After a refusal both are as they were.
fn append(bytes: &mut Vec<u8>, ends: &mut Vec<u32>, line: &[u8]) -> Result<(), AllocError>
    requires { vec_len bytes.old + length line.now < 2 ^ 32 }
    ensures bytes_after { OnOk result (bytes.new.items ≡ bytes.old.items ++ line.now) }
    ensures ends_after { OnOk result (ends.new.items ≡ ends.old.items
        ++ (length bytes.old.items + length line.now) ∷ []) }
    ensures bytes_kept { OnErr result (bytes.new.items ≡ bytes.old.items) }
    ensures ends_kept { OnErr result (ends.new.items ≡ ends.old.items) }
{
    bytes.reserve(line.len())?;
    ends.reserve(1)?;
    let end = (bytes.len() + line.len()) as u32;
    // there is room for both
    match bytes.extend_from_slice(line) {
        Ok(()) => {}
        Err(_) => unreachable!(),
    }
    match ends.push(end) {
        Ok(()) => {}
        Err(_) => unreachable!(),
    }
    Ok(())
}

/// Keys in strictly rising unsigned byte order, within limits. No key holds a zero byte.
///
/// The bytes of all keys stand one after another, so a key costs its bytes and four more.
#[derive(Drop)]
pub struct KeyList {
    limits: Limits,
    bytes: Vec<u8>,
    ends: Vec<u32>,
}

impl Model for KeyList {
    ghost use Rattle.std.specs.Prelude.{length};
    ghost use Rattle.sx_bits.specs.Cuts.{cut, AreEnds};
    ghost use Rattle.sx_bits.specs.KeyLists.{Keys, IsKeyList};

    ghost Value = { Keys };

    ghost view = { λ a. record { limits = a.limits; lines = cut 0 a.ends.items a.bytes.items } };

    ghost invariant = { λ a. IsKeyList (record { limits = a.limits; lines = cut 0 a.ends.items a.bytes.items })
        × AreEnds 0 a.ends.items (length a.bytes.items) };
}

impl KeyList {
    ghost use Rattle.std.specs.Prelude.{Bool, map, slice_get, Some, None, MatchOption, MatchResult};
    ghost use Rattle.std.specs.declared.cmp.Ordering.{Ordering as Order};
    ghost use Rattle.sx_spec.specs.Keys.{compares_to_last, refusal, total_bytes};
    ghost use Rattle.sx_spec_strings.specs.Bits.{key_bits};
    ghost use Rattle.sx_bits.specs.KeyLists.{IsWithinStandard, IsKeyList, passes, reason_of};
    ghost use Rattle.sx_bits.specs.Pieces.{IsPiece, piece_bits};
    ghost use Rattle.sx_bits.specs.Views.{bits_of};

    /// An empty list. No limit passes the standard one.
    pub fn new(alloc: Global, limits: Limits) -> KeyList
        requires { IsWithinStandard limits }
        ensures { result ≡ record { limits = limits; lines = [] } }
    {
        KeyList {
            limits,
            bytes: Vec::new(alloc),
            ends: Vec::new(alloc),
        }
    }

    /// Puts a key of at most `max_line` bytes at the end, or tells the first reason against it.
    pub fn push(&mut self, line: &[u8]) -> Result<(), KeyFault>
        requires { length line.now ≤ self.old.limits.max_line }
        ensures ok { OnOk result (self.new
            ≡ record self.old { lines = self.old.lines ++ line.now ∷ [] }) }
        ensures err { OnErr result (self.new ≡ self.old) }
        ensures limits { self.new.limits ≡ self.old.limits }
        // want of memory comes only where no reason is against the line
        ensures refusal { MatchResult result
            (λ _. refusal self.old.limits self.old.lines line.now ≡ None)
            (λ fault. refusal self.old.limits self.old.lines line.now ≡ reason_of fault) }
    {
        match self.first_fault(line) {
            Some(fault) => return Err(fault),
            None => {}
        }
        match append(&mut self.bytes, &mut self.ends, line) {
            Ok(()) => {}
            Err(_) => return Err(KeyFault::Memory),
        }
        Ok(())
    }

    /// How many bytes the keys have together.
    fn total(&self) -> u64
        ensures value { result ≡ total_bytes self.now.lines }
        ensures within { result ≤ self.now.limits.max_bytes }
        ensures keys { IsKeyList self.now }
    {
        self.bytes.len() as u64
    }

    /// How the line stands to the last key, if there is one.
    fn order_to_last(&self, line: &[u8]) -> Option<Ordering>
        ensures { (test : Order → Bool) → compares_to_last test self.now.lines line.now
            ≡ passes test result }
    {
        let count = self.len();
        if count == 0 {
            return None;
        }
        Some(line.cmp(&self.get(count - 1)))
    }

    /// The first reason for which the line can't follow the keys.
    fn first_fault(&self, line: &[u8]) -> Option<KeyFault>
        requires { length line.now ≤ self.now.limits.max_line }
        ensures { MatchOption result (refusal self.now.limits self.now.lines line.now ≡ None)
            (λ fault. refusal self.now.limits self.now.lines line.now ≡ reason_of fault) }
    {
        let limits = self.limits;
        if line.contains(&0) {
            return Some(KeyFault::ZeroByte);
        }
        match self.order_to_last(line) {
            Some(Ordering::Equal) => return Some(KeyFault::Doubled),
            Some(Ordering::Less) => return Some(KeyFault::Unordered),
            _ => {}
        }
        if self.len() >= limits.max_keys {
            return Some(KeyFault::TooManyKeys);
        }
        if self.total() + line.len() as u64 > limits.max_bytes {
            return Some(KeyFault::TooManyBytes);
        }
        None
    }

    /// How many keys there are.
    #[inline(always)]
    pub fn len(&self) -> u32
        ensures value { result ≡ length self.now.lines }
        ensures within { result ≤ self.now.limits.max_keys }
        ensures keys { IsKeyList self.now }
    {
        self.ends.len() as u32
    }

    /// Key number `i`, which is below the number of keys.
    #[inline(always)]
    pub fn get(&self, i: u32) -> &[u8]
        requires { i < length self.now.lines }
        ensures value { slice_get self.now.lines i ≡ Some result.now }
        ensures short { length result.now ≤ 8191 }
    {
        piece_of(&self.bytes, &self.ends, i as usize)
    }

    /// The bits of key number `i`, which is below the number of keys.
    #[inline(always)]
    pub fn view(&self, i: u32) -> BitView<'_>
        requires { i < length self.now.lines }
        ensures { slice_get (map key_bits self.now.lines) i ≡ Some (bits_of result) }
    {
        BitView::key_bits(self.get(i))
    }

    /// The bits of a piece that lies in the list, without its tag.
    #[inline(always)]
    pub fn piece(&self, p: &Piece) -> BitView<'_>
        requires { IsPiece self.now.lines p.now }
        ensures { bits_of result ≡ piece_bits self.now.lines p.now }
    {
        self.view(p.key).range(p.from, p.to)
    }
}
