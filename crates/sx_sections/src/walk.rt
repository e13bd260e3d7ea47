//! The sections of a whole dump, one after another.

ghost use Rattle.std.specs.Prelude.{◌≡◌, ◌≤◌, Err, MatchResult, drop, length, []};
ghost use Rattle.sx_spec.specs.Layout.{sections_in, slots as slots_of};
ghost use Rattle.sx_sections.specs.Checks.{check_number};
ghost use Rattle.sx_sections.specs.Headers.{IsBounded, header_as};
ghost use Rattle.sx_sections.specs.Walks.{AreFound};

use crate::check::check_section;
use crate::header::{FRONT, Header};
use crate::number::Check;
use crate::place::Place;
use crate::slots::slots;
use arrayvec::ArrayVec;

/// Where the sections of a dump stand, in the order of its slots.
pub type Places = ArrayVec<Place, 11>;

/// Where the sections of a dump with this header stand in its words.
///
/// # Errors
/// The first check of a section that fails, or that no words follow the last section.
pub fn walk(words: &[u64], header: &Header) -> Result<Places, Check>
    requires long { 10 ≤ length words.now }
    requires bounded { IsBounded (header_as header.now) }
    ensures { MatchResult result
        (λ places. AreFound (header_as header.now) words.now places.items)
        (λ check. sections_in (slots_of (header_as header.now)) [] (drop 10 words.now)
        ≡ Err (check_number check)) }
{
    let slots = slots(header);
    let mut places = Places::new();
    let mut at = FRONT;
    let mut width = 64;
    let mut count = 0;
    for slot in slots.as_slice() {
        let rule = slot.rule.after(width, count);
        let place = check_section(words, at, rule)?;
        at = place.after();
        width = place.width();
        count = place.count();
        places.push(place);
    }
    if at != words.len() {
        return Err(Check::Rest);
    }
    Ok(places)
}
