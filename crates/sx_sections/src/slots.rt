//! Which sections a dump has, by its header: one table for each kind.

ghost use Rattle.std.specs.Prelude.{◌≡◌, ◌≤◌, length, map};
ghost use Rattle.sx_spec_kinds.specs.declared.Kind.TheVariants as kinds;
ghost use Rattle.sx_spec.specs.Layout as layout;
ghost use Rattle.sx_sections.specs.Headers.{IsBounded, header_as};
ghost use Rattle.sx_sections.specs.Rules.{AreBounded, function_slot, list_slot, short_slot, slot_as, sums_slot};

use crate::counts::{bucket_count, delimiter_count, handle_count, inner_count};
use crate::header::Header;
use crate::name::SectionName as Name;
use crate::rule::{Bounds, SectionRule, Slot, SlotRule};
use arrayvec::ArrayVec;
use sx_spec::Kind;

/// The slots of a dump, at most 11.
pub type Slots = ArrayVec<Slot, 11>;

/// What lies in a place that isn't taken.
impl Default for Slot {
    fn default() -> Self {
        Slot {
            name: Name::Values,
            rule: SlotRule::Matching,
        }
    }
}

/// A function of exactly so many pairs, of width 32 at most.
fn function(name: Name, pairs: u64) -> Slot
    ensures { result ≡ function_slot name pairs }
{
    Slot::new(name, SectionRule::Function(Bounds::exactly(pairs, 0, 32)))
}

/// A function of at most so many pairs, of width 32 at most.
fn short_function(name: Name, most: u64) -> Slot
    ensures { result ≡ short_slot name most }
{
    Slot::new(name, SectionRule::Function(Bounds::at_most(most)))
}

/// A list of exactly so many numbers, of a width from `low` to `high`.
fn list(name: Name, count: u64, low: u32, high: u32) -> Slot
    ensures { result ≡ list_slot name count low high }
{
    Slot::new(name, SectionRule::List(Bounds::exactly(count, low, high)))
}

/// An Elias-Fano list of exactly so many numbers.
fn sums(name: Name, count: u64) -> Slot
    ensures { result ≡ sums_slot name count }
{
    Slot::new(name, SectionRule::Sums(count))
}

/// The sections of a function.
fn func_slots(header: &Header) -> [Slot; 1]
    requires { IsBounded (header_as header.now) }
    ensures table { map slot_as result ≡ layout.kind_slots kinds.Func (header_as header.now) }
    ensures bounded { AreBounded 64 result }
{
    let pairs = Bounds::exactly(u64::from(header.keys), 0, 64);
    [Slot::new(Name::Values, SectionRule::Function(pairs))]
}

/// The sections of a distributor by the lengths of common prefixes.
fn lcp_slots(header: &Header) -> [Slot; 2]
    requires { IsBounded (header_as header.now) }
    ensures table { map slot_as result ≡ layout.kind_slots kinds.Lcp (header_as header.now) }
    ensures bounded { AreBounded 64 result }
{
    let keys = u64::from(header.keys);
    let buckets = bucket_count(header);
    [
        function(Name::Lengths, keys),
        function(Name::Prefixes, buckets),
    ]
}

/// The sections of a distributor by the codes of these lengths.
fn lcp2_slots(header: &Header) -> [Slot; 5]
    requires { IsBounded (header_as header.now) }
    ensures table { map slot_as result ≡ layout.kind_slots kinds.Lcp2 (header_as header.now) }
    ensures bounded { AreBounded 64 result }
{
    let keys = u64::from(header.keys);
    let buckets = bucket_count(header);
    [
        function(Name::Offsets, keys),
        function(Name::Codes, keys),
        Slot {
            name: Name::Table,
            rule: SlotRule::Coded,
        },
        short_function(Name::Escaped, keys),
        function(Name::Prefixes, buckets),
    ]
}

/// The sections of a hollow trie.
fn hollow_slots(header: &Header) -> [Slot; 2]
    requires { IsBounded (header_as header.now) }
    ensures table { map slot_as result ≡ layout.kind_slots kinds.Hollow (header_as header.now) }
    ensures bounded { AreBounded 64 result }
{
    let numbers = u64::from(header.keys).saturating_sub(1) + 1;
    [sums(Name::Left, numbers), sums(Name::Skip, numbers)]
}

/// The sections of a distributor by a hollow trie.
fn hollow_dist_slots(header: &Header) -> [Slot; 4]
    requires { IsBounded (header_as header.now) }
    ensures table { map slot_as result ≡ layout.kind_slots kinds.HollowDist (header_as header.now) }
    ensures bounded { AreBounded 64 result }
{
    let keys = u64::from(header.keys);
    let numbers = inner_count(header) + 1;
    let turns = (keys + delimiter_count(header)).min(u64::from(u32::MAX));
    [
        function(Name::Offsets, keys),
        sums(Name::Left, numbers),
        sums(Name::Skip, numbers),
        short_function(Name::Turns, turns),
    ]
}

/// The sections of a distributor by a z-fast trie.
fn zfast_slots(header: &Header) -> [Slot; 10]
    requires { IsBounded (header_as header.now) }
    ensures table { map slot_as result ≡ layout.kind_slots kinds.Zfast (header_as header.now) }
    ensures bounded { AreBounded 64 result }
{
    let keys = u64::from(header.keys);
    let nodes = inner_count(header);
    let handles = handle_count(header);
    let bits = header.plan.handle_bits;
    [
        function(Name::Offsets, keys),
        list(Name::Extents, nodes, 0, 32),
        list(Name::Firsts, nodes, 0, 32),
        list(Name::Middles, nodes, 0, 32),
        list(Name::Afters, nodes, 0, 32),
        function(Name::Handles, handles),
        list(Name::Marks, handles, bits, bits),
        function(Name::Codes, keys),
        Slot::new(Name::Corrections, SectionRule::Corrections(keys)),
        Slot {
            name: Name::Blocks,
            rule: SlotRule::Matching,
        },
    ]
}

/// These slots, of which there are at most ten.
fn listed(slots: &[Slot]) -> Slots
    requires { length slots.now ≤ 10 }
    ensures { result.items ≡ slots.now }
{
    let mut list = Slots::new();
    for slot in slots {
        list.push(*slot);
    }
    list
}

/// The sections of a kind, without that of signatures.
fn kind_slots(header: &Header) -> Slots
    requires { IsBounded (header_as header.now) }
    ensures table { map slot_as result.items
        ≡ layout.kind_slots header.now.plan.kind (header_as header.now) }
    ensures bounded { AreBounded 64 result.items }
    ensures few { length result.items ≤ 10 }
{
    match header.plan.kind {
        Kind::Func => listed(&func_slots(header)),
        Kind::Lcp => listed(&lcp_slots(header)),
        Kind::Lcp2 => listed(&lcp2_slots(header)),
        Kind::Hollow => listed(&hollow_slots(header)),
        Kind::HollowDist => listed(&hollow_dist_slots(header)),
        Kind::Zfast => listed(&zfast_slots(header)),
    }
}

/// The sections of a dump with this header, in order.
pub fn slots(header: &Header) -> Slots
    requires { IsBounded (header_as header.now) }
    ensures table { map slot_as result.items ≡ layout.slots (header_as header.now) }
    ensures bounded { AreBounded 64 result.items }
{
    let mut slots = kind_slots(header);
    let kept = header.plan.signed;
    if kept != 0 {
        slots.push(list(Name::Signatures, u64::from(header.keys), kept, kept));
    }
    slots
}
