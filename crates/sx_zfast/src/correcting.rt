//! The keys that a false answer misleads.

ghost use Rattle.std.specs.Prelude.{◌≡◌, ◌-◌, ◌<◌, ◌≤◌, IfOk, length, map as mapped, option_map, take};
ghost use Rattle.sx_spec_strings.specs.Bits.{key_bits};
ghost use Rattle.sx_spec_kinds.specs.Search.{handles_of};
ghost use Rattle.sx_spec_kinds.specs.Trie.{extents_of};
ghost use Rattle.sx_spec_kinds.specs.Zfast.{KnowsHandles, corrections_of, is_block as block_is};
ghost use Rattle.sx_trie.specs.Tries.{IsTrieOf, delimiter_bits};
ghost use Rattle.sx_handles.specs.Parts.{AreZfastParts};
ghost use Rattle.sx_handles.specs.Ways.{IsWayOf, key_at, key_block};
ghost use Rattle.sx_zfast.specs.Corrected.{corrected_as, correction_of};
ghost use Rattle.sx_zfast.specs.Maps.{map_read};
ghost use Rattle.sx_zfast.specs.Memo.{AreKnown};

use crate::memo::Memo;
use crate::probing::{first_false_probe, probed_search};
use crate::reach::Reach;
use crate::signing::Signing;
use std::alloc::{AllocError, Global};
use std::sync::ledger::Ledger;
use sx_bits::KeyList;
use sx_fields::bank::WordBank;
use sx_handles::{Way, Ways, ZfastParts, block_from};
use sx_signed::SignedView;
use sx_steps::Steps;
use sx_trie::Trie;

/// A key whose search goes astray.
#[derive(Clone, Copy, PartialEq, Eq, Debug)]
pub struct Corrected {
    /// The number of the key.
    pub rank: u32,
    /// The first length that its search asks at which it is misled.
    pub probe: u32,
    /// Its block.
    pub block: u32,
}

/// Whether a block is found, and is this one.
#[inline(always)]
fn is_block(block: u32, found: Option<u32>) -> bool
    ensures { result ≡ block_is block found }
{
    match found {
        Some(other) => other == block,
        None => false,
    }
}

/// With how many bits a key begins as the one before it does; the first one is beside itself.
fn shared_with_last(keys: &KeyList, key: u32) -> u32
    requires { key < length keys.now.lines }
    ensures front { take result (key_at keys.now.lines (key - 1))
        ≡ take result (key_at keys.now.lines key) }
    ensures within { result ≤ length (key_at keys.now.lines key) }
{
    keys.view(key.saturating_sub(1)).lcp(&keys.view(key))
}

/// What is corrected of a key that goes on this way and stands in this block, if it is misled. There
/// are two delimiters or more.
fn correction<B: WordBank + Copy, L: Ledger>(
    keys: &KeyList,
    reach: &Reach<'_>,
    parts: &ZfastParts,
    way: &Way<'_>,
    block: u32,
    map: &SignedView<B>,
    key: u32,
    signing: Signing,
    memo: &mut Memo,
    steps: &mut Steps<L>,
) -> Option<Corrected>
    requires built { IsTrieOf keys.now.lines reach.now.trie.now }
    requires some { 1 < length reach.now.trie.now.delimiters }
    requires parts { AreZfastParts keys.now.lines reach.now.trie.now.delimiters parts.now }
    requires key { key < length keys.now.lines }
    requires block { block ≡ key_block keys.now.lines reach.now.trie.now.delimiters key }
    requires way { IsWayOf
        (extents_of (delimiter_bits keys.now.lines reach.now.trie.now.delimiters))
        (key_at keys.now.lines key) way.now.shared way.now.nodes.now }
    requires knows { KnowsHandles (map_read map.now signing.seed signing.sig_bits)
        (handles_of (extents_of (delimiter_bits keys.now.lines reach.now.trie.now.delimiters))) }
    requires memo { AreKnown (map_read map.now signing.seed signing.sig_bits)
        (key_at keys.now.lines key) memo.old.slots }
    ensures value { option_map corrected_as result
        ≡ correction_of (map_read map.now signing.seed signing.sig_bits)
        (delimiter_bits keys.now.lines reach.now.trie.now.delimiters) key
        (key_at keys.now.lines key) }
    ensures memo { AreKnown (map_read map.now signing.seed signing.sig_bits)
        (key_at keys.now.lines key) memo.new.slots }
    ensures counted { steps.old ≤ steps.new }
{
    let view = keys.view(key);
    let node = probed_search(keys, reach, way, map, &view, signing, memo, steps);
    let code = u64::from(parts.codes[key as usize]);
    if is_block(block, block_from(&reach.trie.node(node), code, &view)) {
        return None;
    }
    Some(Corrected {
        rank: key,
        probe: first_false_probe(keys, reach, way, map, &view, signing, steps),
        block,
    })
}

/// The keys for which the search by a map and their codes give no block or a wrong one, by rising
/// number. The trie was built from the keys with these numbers, the parts are those of both, and the
/// map knows each handle. With fewer than two delimiters there is no search, and no such key.
///
/// # Errors
///
/// Want of memory.
pub fn corrections<B: WordBank + Copy, L: Ledger>(
    alloc: Global,
    keys: &KeyList,
    delimiters: &[u32],
    trie: &Trie,
    parts: &ZfastParts,
    map: &SignedView<B>,
    seed: u64,
    sig_bits: u32,
    steps: &mut Steps<L>,
) -> Result<Vec<Corrected>, AllocError>
    requires built { IsTrieOf keys.now.lines trie.now }
    requires same { trie.now.delimiters ≡ delimiters.now }
    requires parts { AreZfastParts keys.now.lines delimiters.now parts.now }
    requires bits { sig_bits ≤ 192 }
    requires knows { KnowsHandles (map_read map.now seed sig_bits)
        (handles_of (extents_of (delimiter_bits keys.now.lines delimiters.now))) }
    ensures value { IfOk result (λ list. mapped corrected_as list.items
        ≡ corrections_of (map_read map.now seed sig_bits)
        (delimiter_bits keys.now.lines delimiters.now) (mapped key_bits keys.now.lines)) }
    ensures counted { steps.old ≤ steps.new }
{
    let mut list = Vec::new(alloc);
    if delimiters.len() < 2 {
        return Ok(list);
    }
    let signing = Signing { seed, sig_bits };
    let reach = Reach::of(trie);
    let mut ways = Ways::new(alloc, keys, trie)?;
    let mut memo = Memo::new();
    for key in 0..keys.len() {
        ways.go_to(keys, delimiters, trie, key)?;
        let way = ways.of(keys, delimiters, trie, key);
        let block = ways.block;
        memo.go_on(shared_with_last(keys, key));
        if let Some(found) = correction(
            keys, &reach, parts, &way, block, map, key, signing, &mut memo, steps,
        ) {
            list.push(found)?;
        }
    }
    Ok(list)
}
