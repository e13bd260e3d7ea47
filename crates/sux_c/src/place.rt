//! Where a section stands, as numbers.

ghost use Rattle.std.specs.Prelude.{◌≡◌};
ghost use Rattle.sux_c.specs.Places.{place_of};

use sx_ef::section::Sums;
use sx_fields::section::Section;
use sx_sections::place::{CorrectionsPlace, Place};

/// Where a section stands in the words of a dump. A number that doesn't go with what it is, is 0.
#[repr(C)]
#[derive(Clone, Copy)]
pub struct SuxPlace {
    /// What it is: 0 a function, 1 a packed list, 2 an Elias-Fano list, and else signatures.
    pub what: u32,
    pub width: u32,
    pub count: u64,
    /// The number below which those of an Elias-Fano list are.
    pub below: u64,
    pub body: usize,
    pub after: usize,
}

impl SuxPlace {
    /// The numbers of a place.
    pub fn of(place: &Place) -> SuxPlace
        ensures { place_of result ≡ place.now }
    {
        match place {
            Place::Function(section) => packed(0, section),
            Place::List(section) => packed(1, section),
            Place::Sums(sums) => SuxPlace {
                what: 2,
                width: 0,
                count: sums.count,
                below: sums.below,
                body: sums.body,
                after: sums.after,
            },
            Place::Corrections(corrections) => SuxPlace {
                what: 3,
                width: 0,
                count: corrections.count,
                below: 0,
                body: corrections.body,
                after: corrections.after,
            },
        }
    }

    /// The place of these numbers.
    pub fn to_place(&self) -> Place
        ensures { result ≡ place_of self.now }
    {
        match self.what {
            0 => Place::Function(self.section()),
            1 => Place::List(self.section()),
            2 => Place::Sums(Sums {
                count: self.count,
                below: self.below,
                body: self.body,
                after: self.after,
            }),
            _ => Place::Corrections(CorrectionsPlace {
                count: self.count,
                body: self.body,
                after: self.after,
            }),
        }
    }

    /// The place of a function or a packed list.
    fn section(&self) -> Section
        ensures width { result.width ≡ self.now.width }
        ensures count { result.count ≡ self.now.count }
        ensures body { result.body ≡ self.now.body }
        ensures after { result.after ≡ self.now.after }
    {
        Section {
            width: self.width,
            count: self.count,
            body: self.body,
            after: self.after,
        }
    }
}

/// The numbers of a function or a packed list.
fn packed(what: u32, section: &Section) -> SuxPlace
    ensures what { result.what ≡ what }
    ensures width { result.width ≡ section.now.width }
    ensures count { result.count ≡ section.now.count }
    ensures body { result.body ≡ section.now.body }
    ensures after { result.after ≡ section.now.after }
{
    SuxPlace {
        what,
        width: section.width,
        count: section.count,
        below: 0,
        body: section.body,
        after: section.after,
    }
}
