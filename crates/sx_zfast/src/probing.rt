//! The searches of a key while its distributor is built: the one that is told of each handle and of no
//! other string, and the one that asks what is kept of the handles.

ghost use Rattle.std.specs.Prelude.{◌≡◌, ◌+◌, ◌<◌, ◌≤◌, IfSome, List, is_some, length, map as mapped, take, slice_index};
ghost use Rattle.sx_spec_strings.specs.Bits.{Bits};
ghost use Rattle.sx_spec_kinds.specs.Search.{handles_of, reached as node_reached};
ghost use Rattle.sx_spec_kinds.specs.Trie.{IsTrie, extents_of};
ghost use Rattle.sx_spec_kinds.specs.Zfast.{KnowsHandles, false_probes, probed_node, probed_search_of};
ghost use Rattle.sx_bits.specs.Views.{bits_of};
ghost use Rattle.sx_trie.specs.Tries.{IsTrieOf, delimiter_bits};
ghost use Rattle.sx_handles.specs.Ways.{IsWayOf};
ghost use Rattle.sx_zfast.specs.Maps.{map_read};
ghost use Rattle.sx_zfast.specs.Memo.{AreKnown};

use crate::memo::Memo;
use crate::reach::Reach;
use crate::signing::Signing;
use std::sync::ledger::Ledger;
use sx_bits::{BitView, KeyList};
use sx_fields::bank::WordBank;
use sx_handles::Way;
use sx_sig::sign;
use sx_signed::SignedView;
use sx_steps::Steps;
use sx_trie::{Trie, fattest};

/// The node that a map answers the first `len` bits of a string, of which it has as many.
#[inline(always)]
pub(crate) fn probed<B: WordBank + Copy, L: Ledger>(
    map: &SignedView<B>,
    view: &BitView<'_>,
    len: u32,
    signing: Signing,
    steps: &mut Steps<L>,
) -> Option<u64>
    requires { len ≤ length (bits_of view.now) }
    ensures value { result ≡ probed_node (map_read map.now signing.seed signing.sig_bits)
        (take len (bits_of view.now)) }
    ensures counted { steps.old ≤ steps.new }
    ensures cost { steps.new ≤ steps.old + 10 }
{
    let sig = sign(signing.seed, &view.prefix(len), None, signing.sig_bits);
    let place = map.lookup(&sig, steps)?;
    Some(place + 1)
}

/// The node that a map answers the first `len` bits of a key, which are some, where it knows each
/// handle: that of a handle needs no signature, and neither does what is known.
fn answered<B: WordBank + Copy, L: Ledger>(
    way: &Way<'_>,
    map: &SignedView<B>,
    view: &BitView<'_>,
    len: u32,
    signing: Signing,
    memo: &mut Memo,
    steps: &mut Steps<L>,
) -> Option<u64>
    requires some { 0 < len }
    requires inside { len ≤ length (bits_of view.now) }
    requires memo { AreKnown (map_read map.now signing.seed signing.sig_bits)
        (bits_of view.now) memo.old.slots }
    ensures value { (extents : List Bits) → IsTrie extents
        → IsWayOf extents (bits_of view.now) way.now.shared way.now.nodes.now
        → KnowsHandles (map_read map.now signing.seed signing.sig_bits) (handles_of extents)
        → result ≡ probed_node (map_read map.now signing.seed signing.sig_bits)
        (take len (bits_of view.now)) }
    ensures memo { AreKnown (map_read map.now signing.seed signing.sig_bits)
        (bits_of view.now) memo.new.slots }
    ensures counted { steps.old ≤ steps.new }
{
    if let Some(node) = way.handled(len) {
        return Some(u64::from(node));
    }
    if let Some(answer) = memo.answer(len) {
        return answer;
    }
    let answer = probed(map, view, len, signing, steps);
    memo.learn(len, answer);
    answer
}

/// The node of a trie to which an answer for the first `len` bits of a string leads: the one that is
/// answered, where it is one and its extent has at least so many bits, which are some.
fn reached(trie: &Trie, answer: Option<u64>, len: u32) -> Option<u32>
    requires { 0 < len }
    ensures value { result ≡ node_reached (mapped (λ w. w.extent) trie.now.nodes) len answer }
    ensures inside { IfSome result (λ v. v < length trie.now.nodes) }
{
    let node = answer?;
    if node < u64::from(trie.nodes()) && len <= trie.node(node as u32).extent {
        Some(node as u32)
    } else {
        None
    }
}

/// The node at which the search of a key that goes on this way ends, where it asks the map.
pub(crate) fn probed_search<B: WordBank + Copy, L: Ledger>(
    keys: &KeyList,
    reach: &Reach<'_>,
    way: &Way<'_>,
    map: &SignedView<B>,
    view: &BitView<'_>,
    signing: Signing,
    memo: &mut Memo,
    steps: &mut Steps<L>,
) -> u32
    requires built { IsTrieOf keys.now.lines reach.now.trie.now }
    requires some { 1 < length reach.now.trie.now.delimiters }
    requires way { IsWayOf
        (extents_of (delimiter_bits keys.now.lines reach.now.trie.now.delimiters))
        (bits_of view.now) way.now.shared way.now.nodes.now }
    requires knows { KnowsHandles (map_read map.now signing.seed signing.sig_bits)
        (handles_of (extents_of (delimiter_bits keys.now.lines reach.now.trie.now.delimiters))) }
    requires memo { AreKnown (map_read map.now signing.seed signing.sig_bits)
        (bits_of view.now) memo.old.slots }
    ensures value { result ≡ (probed_search_of (map_read map.now signing.seed signing.sig_bits)
        (mapped (λ w. w.extent) reach.now.trie.now.nodes) (bits_of view.now)).node }
    ensures inside { result < length reach.now.trie.now.nodes }
    ensures memo { AreKnown (map_read map.now signing.seed signing.sig_bits)
        (bits_of view.now) memo.new.slots }
    ensures counted { steps.old ≤ steps.new }
{
    let trie = reach.trie;
    let mut at = 0;
    let mut limit = view.len();
    loop {
        let depth = trie.node(at).extent;
        if limit <= depth {
            return at;
        }
        let len = fattest(depth, limit);
        if len > reach.longest {
            limit = len - 1;
            continue;
        }
        let answer = answered(way, map, view, len, signing, memo, steps);
        match reached(trie, answer, len) {
            Some(node) => at = node,
            None => limit = len - 1,
        }
    }
}

/// Whether a map leads the first `len` bits of a string, of which it has as many and which are some,
/// to a node of a trie. Beyond the longest extent it leads to none, and nothing is signed.
fn misleads<B: WordBank + Copy, L: Ledger>(
    reach: &Reach<'_>,
    map: &SignedView<B>,
    view: &BitView<'_>,
    len: u32,
    signing: Signing,
    steps: &mut Steps<L>,
) -> bool
    requires some { 0 < len }
    requires inside { len ≤ length (bits_of view.now) }
    ensures value { result ≡ is_some (node_reached
        (mapped (λ w. w.extent) reach.now.trie.now.nodes) len
        (probed_node (map_read map.now signing.seed signing.sig_bits)
        (take len (bits_of view.now)))) }
    ensures counted { steps.old ≤ steps.new }
{
    if len > reach.longest {
        return false;
    }
    let answer = probed(map, view, len, signing, steps);
    reached(reach.trie, answer, len).is_some()
}

/// The first length that the search of a key asks that is told of each handle and of no other string,
/// at which the map misleads; 0 where there is none.
pub(crate) fn first_false_probe<B: WordBank + Copy, L: Ledger>(
    keys: &KeyList,
    reach: &Reach<'_>,
    way: &Way<'_>,
    map: &SignedView<B>,
    view: &BitView<'_>,
    signing: Signing,
    steps: &mut Steps<L>,
) -> u32
    requires built { IsTrieOf keys.now.lines reach.now.trie.now }
    requires some { 1 < length reach.now.trie.now.delimiters }
    requires way { IsWayOf
        (extents_of (delimiter_bits keys.now.lines reach.now.trie.now.delimiters))
        (bits_of view.now) way.now.shared way.now.nodes.now }
    ensures value { let m = map_read map.now signing.seed signing.sig_bits in
        let extents = extents_of (delimiter_bits keys.now.lines reach.now.trie.now.delimiters) in
        result ≡ slice_index (false_probes m extents (bits_of view.now)) 0 }
    ensures counted { steps.old ≤ steps.new }
{
    let trie = reach.trie;
    let mut at = 0;
    let mut limit = view.len();
    loop {
        let depth = trie.node(at).extent;
        if limit <= depth {
            return 0;
        }
        let len = fattest(depth, limit);
        match way.handled(len) {
            Some(node) => match reached(trie, Some(u64::from(node)), len) {
                Some(node) => at = node,
                None => limit = len - 1,
            },
            None => {
                if misleads(reach, map, view, len, signing, steps) {
                    return len;
                }
                limit = len - 1;
            }
        }
    }
}
