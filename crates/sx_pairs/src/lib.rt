//! The pairs of the hollow trie of delimiters: of each node the fragments of the keys that visit
//! it, and where a walk goes on with them.
#![tactic(auto)]

ghost use Rattle.std.specs.Prelude.{◌≡◌, ◌+◌, ◌≤◌, List, ◌++◌, IfOk, OnOk, length, map};
ghost use Rattle.std.specs.List.{AllByRecursion};
ghost use Rattle.sx_spec_strings.specs.Bits.{key_bits};
ghost use Rattle.sx_spec_kinds.specs.HollowDistributor.{NodePair as SpecPair, pairs_of};
ghost use Rattle.sx_spec_kinds.specs.Pairs.{turns_pairs};
ghost use Rattle.sx_trie.specs.Tries.{AreRising, IsTrieOf, delimiter_bits};
ghost use Rattle.sx_bits.specs.Pieces.{IsPiece};
ghost use Rattle.sx_pairs.specs.Pairs.{ArePairs, all_inner_pairs, all_leaf_pairs, string_turn};

mod nodes;
mod runs;
mod turn;

use nodes::{inner_node, leaf_node, push_node};
use std::alloc::{AllocError, Global};
use sx_bits::KeyList;
use sx_trie::Trie;
pub use turn::{NodePair, Turn};

/// Puts the pairs of the inner nodes behind the others.
fn push_inner(
    pairs: &mut Vec<NodePair>,
    keys: &KeyList,
    trie: &Trie,
    delimiters: &[u32],
) -> Result<(), AllocError>
    requires built { IsTrieOf keys.now.lines trie.now }
    requires same { trie.now.delimiters ≡ delimiters.now }
    ensures { OnOk result ((before : List SpecPair)
        → ArePairs keys.now.lines pairs.old.items before
        → ArePairs keys.now.lines pairs.new.items
        (before ++ all_inner_pairs keys.now.lines delimiters.now)) }
{
    for tag in 0..trie.nodes() {
        push_node(pairs, keys, &inner_node(keys, trie, delimiters, tag))?;
    }
    Ok(())
}

/// Puts the pairs of the leaves, of which the first has this tag, behind the others.
fn push_leaves(
    pairs: &mut Vec<NodePair>,
    keys: &KeyList,
    delimiters: &[u32],
    first: u32,
) -> Result<(), AllocError>
    requires rising { AreRising keys.now.lines delimiters.now }
    requires few { first ≤ length keys.now.lines }
    ensures { OnOk result ((before : List SpecPair)
        → ArePairs keys.now.lines pairs.old.items before
        → ArePairs keys.now.lines pairs.new.items
        (before ++ all_leaf_pairs keys.now.lines delimiters.now first)) }
{
    let _count = keys.len();
    for leaf in 0..delimiters.len() as u32 {
        push_node(
            pairs,
            keys,
            &leaf_node(keys, delimiters, first + leaf, leaf),
        )?;
    }
    Ok(())
}

/// The pairs of keys, where the delimiters are the keys with these numbers, which rise strictly:
/// those of the inner nodes in preorder, and then those of the leaves, at each node in the order of
/// the fragments. They are at most as many as keys and delimiters together.
///
/// At each node a search finds the keys that visit it, and of keys with the same fragment only the
/// first and the last few are looked at.
///
/// # Errors
/// Only for want of memory.
pub fn pairs(alloc: Global, keys: &KeyList, delimiters: &[u32]) -> Result<Vec<NodePair>, AllocError>
    requires delimiters { AreRising keys.now.lines delimiters.now }
    ensures pairs { IfOk result (λ pairs. ArePairs keys.now.lines pairs.items
        (pairs_of (map key_bits keys.now.lines)
        (delimiter_bits keys.now.lines delimiters.now))) }
    ensures strings { IfOk result (λ pairs. map (string_turn keys.now.lines) pairs.items
        ≡ turns_pairs (map key_bits keys.now.lines)
        (delimiter_bits keys.now.lines delimiters.now)) }
    ensures pieces { IfOk result
        (λ pairs. AllByRecursion (λ p. IsPiece keys.now.lines p.piece) pairs.items) }
    ensures few { IfOk result
        (λ pairs. length pairs.items ≤ length keys.now.lines + length delimiters.now) }
{
    let _count = keys.len();
    let trie = Trie::build(alloc, keys, delimiters)?;
    let mut pairs = Vec::new(alloc);
    push_inner(&mut pairs, keys, &trie, delimiters)?;
    push_leaves(&mut pairs, keys, delimiters, trie.nodes())?;
    Ok(pairs)
}

#[cfg(test)]
mod tests;
