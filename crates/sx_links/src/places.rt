//! Links as numbers: one more than the place of a seat, and 0 for the head of a list.

ghost use Rattle.std.specs.Prelude.{◌≡◌, ◌<◌, ℕ, IfOk, length, replicate, slice_set};
ghost use Rattle.sx_links.specs.Chains.{place_of};
ghost use Rattle.sx_links.specs.Linked.{afters_of, befores_of, lone, place_at, seat_at};

use crate::Seat;
use std::alloc::{AllocError, Global};

/// The links from a seat, or from the head of a list, to both sides.
#[derive(Clone, Copy, Debug)]
pub(crate) struct Neighbours {
    pub(crate) before: u32,
    pub(crate) after: u32,
}

/// The place of a seat.
#[inline]
pub(crate) fn place_of(hooks: u32, seat: Seat) -> usize
    ensures { result ≡ place_of hooks seat }
{
    seat.item as usize * hooks as usize + seat.hook as usize
}

/// The seat to which a link leads, None for the head of a list.
#[inline]
pub(crate) fn seat_at(hooks: u32, link: u32) -> Option<Seat>
    requires { 0 < link → 0 < hooks }
    ensures { result ≡ seat_at hooks link }
{
    if link == 0 {
        return None;
    }
    let place = link - 1;
    Some(Seat {
        item: place / hooks,
        hook: place % hooks,
    })
}

/// Where the neighbours stand of what a link of a list leads to.
#[inline]
pub(crate) fn place_at(link: u32, head: usize) -> usize
    ensures { result ≡ place_at link head }
{
    if link == 0 { head } else { link as usize - 1 }
}

/// Sets the link to what stands before.
#[inline]
pub(crate) fn set_before(neighbours: &mut Vec<Neighbours>, place: usize, link: u32)
    requires { place < length neighbours.old.items }
    ensures befores { befores_of neighbours.new.items
        ≡ slice_set (befores_of neighbours.old.items) place link }
    ensures afters { afters_of neighbours.new.items ≡ afters_of neighbours.old.items }
    ensures len { length neighbours.new.items ≡ length neighbours.old.items }
{
    neighbours[place].before = link;
}

/// Sets the link to what stands after.
#[inline]
pub(crate) fn set_after(neighbours: &mut Vec<Neighbours>, place: usize, link: u32)
    requires { place < length neighbours.old.items }
    ensures befores { befores_of neighbours.new.items ≡ befores_of neighbours.old.items }
    ensures afters { afters_of neighbours.new.items
        ≡ slice_set (afters_of neighbours.old.items) place link }
    ensures len { length neighbours.new.items ≡ length neighbours.old.items }
{
    neighbours[place].after = link;
}

/// So many links from heads of empty lists, and from seats that lie on no list.
pub(crate) fn no_neighbours(alloc: Global, count: usize) -> Result<Vec<Neighbours>, AllocError>
    ensures { IfOk result (λ v. v.items ≡ replicate count lone) }
{
    let lone = Neighbours {
        before: 0,
        after: 0,
    };
    Ok(vec![in alloc; lone; count]?)
}

/// So many zeros.
pub(crate) fn zeros(alloc: Global, count: usize) -> Result<Vec<u32>, AllocError>
    ensures { IfOk result (λ v. v.items ≡ replicate count 0) }
{
    Ok(vec![in alloc; 0; count]?)
}
