//! The handles of inner nodes, and the codes of keys.

ghost use Rattle.std.specs.Prelude.{◌≡◌, ◌<◌, ◌≤◌, IfOk, length, map};
ghost use Rattle.std.specs.List.{AllByRecursion};
ghost use Rattle.sx_spec_strings.specs.Bits.{key_bits};
ghost use Rattle.sx_spec_kinds.specs.Search.{handle_of, handles_of};
ghost use Rattle.sx_spec_kinds.specs.Trie.{extents_of};
ghost use Rattle.sx_spec_kinds.specs.Zfast.{code_of};
ghost use Rattle.sx_bits.specs.Pieces.{IsPiece, piece_string};
ghost use Rattle.sx_trie.specs.Tries.{AreRising, IsTrieOf, delimiter_bits};
ghost use Rattle.sx_handles.specs.Parts.{AreZfastParts};
ghost use Rattle.sx_handles.specs.Ways.{IsWayOf, extent_at, key_at, key_block};

use crate::blocks::child_leaves;
use crate::ways::{Way, Ways};
use std::alloc::{AllocError, Global};
use sx_bits::{KeyList, Piece};
use sx_trie::Trie;

/// What the functions of a z-fast distributor are built of.
#[derive(Drop)]
pub struct ZfastParts {
    /// At i the handle of inner node i + 1: the root has none.
    pub handles: Vec<Piece>,
    /// The code of each key, from 0 to 3.
    pub codes: Vec<u32>,
}

/// The handle of an inner node that isn't the root: the first bits of any delimiter under it.
fn handle_at(keys: &KeyList, delimiters: &[u32], trie: &Trie, node: u32) -> Piece
    requires built { IsTrieOf keys.now.lines trie.now }
    requires same { trie.now.delimiters ≡ delimiters.now }
    requires some { 1 ≤ node }
    requires inside { node < length trie.now.nodes }
    ensures piece { IsPiece keys.now.lines result }
    ensures string { piece_string keys.now.lines result
        ≡ handle_of (extents_of (delimiter_bits keys.now.lines delimiters.now))
        (extent_at (extents_of (delimiter_bits keys.now.lines delimiters.now)) node) }
{
    Piece {
        tag: None,
        key: delimiters[trie.node(node).first as usize],
        from: 0,
        to: trie.handle_len(node),
    }
}

/// The handles of the inner nodes but the root.
fn handles(
    alloc: Global,
    keys: &KeyList,
    delimiters: &[u32],
    trie: &Trie,
) -> Result<Vec<Piece>, AllocError>
    requires built { IsTrieOf keys.now.lines trie.now }
    requires same { trie.now.delimiters ≡ delimiters.now }
    ensures pieces { IfOk result
        (λ handles. AllByRecursion (IsPiece keys.now.lines) handles.items) }
    ensures strings { IfOk result (λ handles. map (piece_string keys.now.lines) handles.items
        ≡ handles_of (extents_of (delimiter_bits keys.now.lines delimiters.now))) }
{
    let mut handles = Vec::new(alloc);
    for node in 1..trie.nodes() {
        handles.push(handle_at(keys, delimiters, trie, node))?;
    }
    Ok(handles)
}

/// The code of a key that has this way and stands in this block.
fn code_on(keys: &KeyList, trie: &Trie, way: &Way<'_>, block: u32, key: u32) -> u32
    requires built { IsTrieOf keys.now.lines trie.now }
    requires some { 1 < length trie.now.delimiters }
    requires key { key < length keys.now.lines }
    requires block { block ≡ key_block keys.now.lines trie.now.delimiters key }
    requires way { IsWayOf (extents_of (delimiter_bits keys.now.lines trie.now.delimiters))
        (key_at keys.now.lines key) way.now.shared way.now.nodes.now }
    ensures { result ≡ code_of (delimiter_bits keys.now.lines trie.now.delimiters)
        (key_at keys.now.lines key) }
{
    let _count = keys.len();
    let view = keys.view(key);
    let node = trie.node(way.deepest());
    if way.shared < node.extent {
        // the key leaves within the extent, below or above all delimiters under the node
        return if block <= node.first { 0 } else { 1 };
    }
    let (first, _) = child_leaves(&node, view.bit(node.extent));
    if block <= first { 2 } else { 3 }
}

/// The codes of keys by two delimiters or more.
fn codes_on_ways(
    alloc: Global,
    keys: &KeyList,
    delimiters: &[u32],
    trie: &Trie,
) -> Result<Vec<u32>, AllocError>
    requires built { IsTrieOf keys.now.lines trie.now }
    requires same { trie.now.delimiters ≡ delimiters.now }
    requires some { 1 < length delimiters.now }
    ensures { IfOk result (λ codes. codes.items
        ≡ map (code_of (delimiter_bits keys.now.lines delimiters.now))
        (map key_bits keys.now.lines)) }
{
    let mut codes = Vec::with_capacity(alloc, keys.len() as usize)?;
    let mut ways = Ways::new(alloc, keys, trie)?;
    for key in 0..keys.len() {
        ways.go_to(keys, delimiters, trie, key)?;
        let way = ways.of(keys, delimiters, trie, key);
        codes.push(code_on(keys, trie, &way, ways.block, key))?;
    }
    Ok(codes)
}

/// The code of a key by one delimiter or none: 1 above it, and else 0.
fn code_by_one(keys: &KeyList, delimiters: &[u32], key: u32) -> u32
    requires rising { AreRising keys.now.lines delimiters.now }
    requires few { length delimiters.now < 2 }
    requires key { key < length keys.now.lines }
    ensures { result ≡ code_of (delimiter_bits keys.now.lines delimiters.now)
        (key_at keys.now.lines key) }
{
    let _count = keys.len();
    if delimiters.is_empty() {
        return 0;
    }
    if delimiters[0] < key { 1 } else { 0 }
}

/// The codes of keys by one delimiter or none.
fn codes_by_one(alloc: Global, keys: &KeyList, delimiters: &[u32]) -> Result<Vec<u32>, AllocError>
    requires rising { AreRising keys.now.lines delimiters.now }
    requires few { length delimiters.now < 2 }
    ensures { IfOk result (λ codes. codes.items
        ≡ map (code_of (delimiter_bits keys.now.lines delimiters.now))
        (map key_bits keys.now.lines)) }
{
    let mut codes = Vec::with_capacity(alloc, keys.len() as usize)?;
    for key in 0..keys.len() {
        codes.push(code_by_one(keys, delimiters, key))?;
    }
    Ok(codes)
}

/// The code of each key.
fn codes(
    alloc: Global,
    keys: &KeyList,
    delimiters: &[u32],
    trie: &Trie,
) -> Result<Vec<u32>, AllocError>
    requires built { IsTrieOf keys.now.lines trie.now }
    requires same { trie.now.delimiters ≡ delimiters.now }
    ensures { IfOk result (λ codes. codes.items
        ≡ map (code_of (delimiter_bits keys.now.lines delimiters.now))
        (map key_bits keys.now.lines)) }
{
    if delimiters.len() < 2 {
        codes_by_one(alloc, keys, delimiters)
    } else {
        codes_on_ways(alloc, keys, delimiters, trie)
    }
}

/// The handles of the inner nodes of a trie of some of the keys, and the codes of all keys. The trie
/// was built from the keys with these numbers.
///
/// # Errors
///
/// Want of memory.
pub fn zfast_parts(
    alloc: Global,
    keys: &KeyList,
    delimiters: &[u32],
    trie: &Trie,
) -> Result<ZfastParts, AllocError>
    requires built { IsTrieOf keys.now.lines trie.now }
    requires same { trie.now.delimiters ≡ delimiters.now }
    ensures { IfOk result (AreZfastParts keys.now.lines delimiters.now) }
{
    let handles = handles(alloc, keys, delimiters, trie)?;
    let codes = codes(alloc, keys, delimiters, trie)?;
    Ok(ZfastParts { handles, codes })
}
