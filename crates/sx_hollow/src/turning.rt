//! How a walk goes on from a node, or ends there, by the turn that a function gives its string.

ghost use Rattle.std.specs.Prelude.{◌≡◌, ◌+◌, ◌<◌, ◌≤◌, ◌^◌, length};
ghost use Rattle.sx_spec_kinds.specs.Hollow.{descend, end_of};
ghost use Rattle.sx_spec_kinds.specs.HollowDistributor.{turn_at_inner, turn_at_leaf};
ghost use Rattle.sx_bits.specs.Views.{bits_of};
ghost use Rattle.sx_hollow.specs.Dist.{IfGoes, IsLater, reserve, walk_as};
ghost use Rattle.sx_hollow.specs.Walks.{stand_of};

use crate::top::{Entry, NOT_KEPT};
use crate::walk::Stand;
use sx_bits::BitView;

/// The string goes on as the delimiters below the node do.
const FOLLOW: u64 = 0;

/// The string is below all delimiters below the node, or it is the one at the leaf.
const TURN_LEFT: u64 = 1;

/// The string is above all delimiters below the node.
const TURN_RIGHT: u64 = 2;

/// Where a walk is after a step.
#[derive(Clone, Copy)]
pub(crate) enum Walk {
    /// At a node or at a leaf.
    Goes(Stand),
    /// At its end, with a block.
    Ends(u64),
    /// At its end, with none.
    Lost,
}

/// Where a child of a node is kept, if the node is.
#[inline(always)]
fn child_place(entry: &Entry, right: bool) -> u32
    ensures { reserve result ≤ reserve entry.now.children }
{
    if entry.children == NOT_KEPT {
        return NOT_KEPT;
    }
    entry.children + u32::from(right)
}

/// On from an inner node by the next bit of the string that isn't skipped, if it has one.
#[inline(always)]
fn follow(at: &Stand, entry: &Entry, view: &BitView<'_>) -> Walk
    requires node { at.now.node + at.now.leaves < 2 ^ 32 }
    requires first { at.now.first + at.now.leaves < 2 ^ 32 }
    requires within { at.now.pos ≤ length (bits_of view.now) }
    requires some { 0 < entry.now.left }
    requires fewer { entry.now.left < at.now.leaves }
    ensures value { walk_as result ≡ descend entry.now.left entry.now.skip (bits_of view.now)
        (stand_of at.now) }
    ensures later { IfGoes result (IsLater (length (bits_of view.now)) at.now) }
    ensures place { IfGoes result (λ s. reserve s.place ≤ reserve entry.now.children) }
{
    if view.len() <= at.pos {
        return Walk::Lost;
    }
    let Some(next) = at.descend(entry.left, entry.skip, view) else {
        return Walk::Lost;
    };
    let place = child_place(entry, next.first != at.first);
    Walk::Goes(Stand { place, ..next })
}

/// On from an inner node by the string's turn there.
#[inline(always)]
pub(crate) fn turned(at: &Stand, entry: &Entry, turn: u64, view: &BitView<'_>) -> Walk
    requires node { at.now.node + at.now.leaves < 2 ^ 32 }
    requires first { at.now.first + at.now.leaves < 2 ^ 32 }
    requires within { at.now.pos ≤ length (bits_of view.now) }
    requires some { 0 < entry.now.left }
    requires fewer { entry.now.left < at.now.leaves }
    ensures value { walk_as result ≡ turn_at_inner entry.now.left entry.now.skip
        (bits_of view.now) (stand_of at.now) turn }
    ensures later { IfGoes result (IsLater (length (bits_of view.now)) at.now) }
    ensures place { IfGoes result (λ s. reserve s.place ≤ reserve entry.now.children) }
{
    match turn {
        FOLLOW => follow(at, entry, view),
        TURN_LEFT => Walk::Ends(at.first),
        TURN_RIGHT => Walk::Ends(at.first + at.leaves),
        _ => Walk::Lost,
    }
}

/// The block of a string by its turn at a leaf.
#[inline(always)]
pub(crate) fn turned_at_leaf(at: &Stand, turn: u64) -> Option<u64>
    requires { at.now.first < 2 ^ 32 }
    ensures { result ≡ end_of (turn_at_leaf (stand_of at.now) turn) }
{
    match turn {
        TURN_LEFT => Some(at.first),
        TURN_RIGHT => Some(at.first + 1),
        _ => None,
    }
}
