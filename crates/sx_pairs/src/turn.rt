//! Where a walk goes on from a node, by its fragment there.

ghost use Rattle.std.specs.Prelude.{◌≡◌, ◌≤◌};
ghost use Rattle.sx_spec_kinds.specs.HollowDistributor.{inner_turn, leaf_turn};
ghost use Rattle.sx_bits.specs.Views.{bits_of};
ghost use Rattle.sx_pairs.specs.Pairs.{node_turn, turn_number};

use std::cmp::Ordering;
use sx_bits::{BitView, Piece};

/// What a walk does at a node: it follows the delimiters on, or turns off to a side of all of them.
#[derive(Clone, Copy, PartialEq, Eq, Debug)]
pub enum Turn {
    Follow,
    Left,
    Right,
}

/// A fragment at a node, whose tag the piece has, and the turn of the walks that have it there.
#[derive(Clone, Copy, PartialEq, Eq, Debug)]
pub struct NodePair {
    pub piece: Piece,
    pub turn: Turn,
}

impl Turn {
    /// The number of the turn, as a function keeps it.
    #[inline(always)]
    pub fn number(self) -> u64
        ensures value { result ≡ turn_number self }
        ensures small { result ≤ 2 }
    {
        match self {
            Turn::Follow => 0,
            Turn::Left => 1,
            Turn::Right => 2,
        }
    }
}

/// The turn at an inner node, whose delimiters have the fragment `own`.
#[inline(always)]
fn turn_inside(own: &BitView<'_>, fragment: &BitView<'_>) -> Turn
    ensures { turn_number result ≡ inner_turn (bits_of own.now) (bits_of fragment.now) }
{
    match fragment.order(own) {
        Ordering::Equal => Turn::Follow,
        Ordering::Less => Turn::Left,
        Ordering::Greater => Turn::Right,
    }
}

/// The turn at a leaf, whose delimiter has the fragment `own`.
#[inline(always)]
fn turn_at_leaf(own: &BitView<'_>, fragment: &BitView<'_>) -> Turn
    ensures { turn_number result ≡ leaf_turn (bits_of own.now) (bits_of fragment.now) }
{
    if own.order(fragment).is_lt() {
        Turn::Right
    } else {
        Turn::Left
    }
}

/// The turn at a leaf or an inner node, by the fragment of its delimiters.
#[inline(always)]
pub(crate) fn turn_of(leaf: bool, own: &BitView<'_>, fragment: &BitView<'_>) -> Turn
    ensures { turn_number result ≡ node_turn leaf (bits_of own.now) (bits_of fragment.now) }
{
    if leaf {
        turn_at_leaf(own, fragment)
    } else {
        turn_inside(own, fragment)
    }
}
