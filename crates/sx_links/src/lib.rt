//! Lists of seats by index. Each item has so many hooks, and a hook of an item is a seat that lies on at most one list.
//! Every call but the first takes constant time and no memory.
#![tactic(auto)]

ghost use Rattle.std.specs.Prelude.{◌≡◌, ◌*◌, ◌<◌, ◌^◌, ℕ, [], IfOk, IsTrue, length, replicate, slice_get, slice_index_or};
ghost use Rattle.sx_links.specs.Seats.{IsListOf, IsSeat, IsTaken, LiesOn, after, put_first, seats_of, taken_out};

mod places;

use places::{
    Neighbours, no_neighbours, place_at, place_of, seat_at, set_after, set_before, zeros,
};
use std::alloc::{AllocError, Global};
use std::marker::Model;

/// A hook of an item.
#[derive(Clone, Copy, PartialEq, Eq, Debug)]
pub struct Seat {
    pub item: u32,
    pub hook: u32,
}

/// Lists of seats. The seats of a list stand on a ring through its head, so that the first and the last of them are put
/// in and taken out as any other is.
#[derive(Debug, Drop)]
pub struct Links {
    items: u32,
    hooks: u32,
    /// How many seats each list has.
    lens: Vec<u32>,
    /// One more than the list of each seat, 0 where it lies on none.
    owners: Vec<u32>,
    /// The links from each seat, and behind them those from the head of each list.
    neighbours: Vec<Neighbours>,
}

impl Model for Links {
    ghost use Rattle.sx_links.specs.Seats.{Lists};

    ghost Value = { Lists };

    ghost use Rattle.sx_links.specs.Linked.{IsFlatNet, flat_of, lists_of};

    ghost view = { λ l. record {
      items = l.items;
      hooks = l.hooks;
      lists = lists_of (flat_of l.hooks l.lens.items l.owners.items l.neighbours.items);
    } };

    ghost invariant = { λ l.
        IsFlatNet l.items (flat_of l.hooks l.lens.items l.owners.items l.neighbours.items) };
}

impl Links {
    /// So many empty lists.
    ///
    /// # Errors
    ///
    /// Want of memory.
    #[inline(always)]
    pub fn new(alloc: Global, items: u32, lists: u32, hooks: u32) -> Result<Links, AllocError>
        requires { items * hooks < 2 ^ 32 }
        ensures { IfOk result
            (λ l. l ≡ record { items = items; hooks = hooks; lists = replicate lists [] }) }
    {
        let seats = items as usize * hooks as usize;
        Ok(Links {
            items,
            hooks,
            lens: zeros(alloc, lists as usize)?,
            owners: zeros(alloc, seats)?,
            neighbours: no_neighbours(alloc, seats + lists as usize)?,
        })
    }

    /// Puts the seat first on a list. The seat lies on none.
    #[inline]
    pub fn push(&mut self, list: u32, item: u32, hook: u32)
        requires list { list < length self.old.lists }
        requires seat { IsSeat self.old (record { item = item; hook = hook }) }
        requires free { ¬ IsTaken self.old (record { item = item; hook = hook }) }
        ensures { self.new ≡ put_first list (record { item = item; hook = hook }) self.old }
    {
        let place = place_of(self.hooks, Seat { item, hook });
        let head = self.owners.len() + list as usize;
        let link = place as u32 + 1;
        let second = self.neighbours[head].after;
        set_before(&mut self.neighbours, place_at(second, head), link);
        set_before(&mut self.neighbours, place, 0);
        set_after(&mut self.neighbours, place, second);
        set_after(&mut self.neighbours, head, link);
        self.owners[place] = list + 1;
        self.lens[list as usize] += 1;
    }

    /// Takes the seat out of its list.
    #[inline]
    pub fn unlink(&mut self, item: u32, hook: u32)
        requires seat { IsSeat self.old (record { item = item; hook = hook }) }
        requires taken { IsTaken self.old (record { item = item; hook = hook }) }
        ensures { self.new ≡ taken_out (record { item = item; hook = hook }) self.old }
    {
        let place = place_of(self.hooks, Seat { item, hook });
        let list = self.owners[place] as usize - 1;
        let head = self.owners.len() + list;
        let Neighbours { before, after } = self.neighbours[place];
        set_before(&mut self.neighbours, place_at(after, head), before);
        set_after(&mut self.neighbours, place_at(before, head), after);
        self.owners[place] = 0;
        self.lens[list] -= 1;
    }

    /// The first seat of a list, None exactly where the list is empty.
    #[inline]
    pub fn first(&self, list: u32) -> Option<Seat>
        requires { list < length self.now.lists }
        ensures { result ≡ slice_get (seats_of self.now list) 0 }
    {
        let head = self.owners.len() + list as usize;
        seat_at(self.hooks, self.neighbours[head].after)
    }

    /// The seat after this one in its list, None exactly where it is the last.
    #[inline]
    pub fn next(&self, item: u32, hook: u32) -> Option<Seat>
        requires seat { IsSeat self.now (record { item = item; hook = hook }) }
        requires taken { IsTaken self.now (record { item = item; hook = hook }) }
        ensures { (list : ℕ) → LiesOn self.now list (record { item = item; hook = hook })
            → result ≡ after (record { item = item; hook = hook }) (seats_of self.now list) }
    {
        let place = place_of(self.hooks, Seat { item, hook });
        seat_at(self.hooks, self.neighbours[place].after)
    }

    /// How many seats a list has.
    #[inline]
    pub fn len(&self, list: u32) -> u32
        requires { list < length self.now.lists }
        ensures { result ≡ length (seats_of self.now list) }
    {
        self.lens[list as usize]
    }

    /// The list on which the seat lies, None exactly where it lies on none.
    #[inline]
    pub fn list_of(&self, item: u32, hook: u32) -> Option<u32>
        requires { IsSeat self.now (record { item = item; hook = hook }) }
        ensures { IsListOf self.now (record { item = item; hook = hook }) result }
    {
        self.owners[place_of(self.hooks, Seat { item, hook })].checked_sub(1)
    }
}

#[cfg(test)]
mod tests;
