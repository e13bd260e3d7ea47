//! Where a section stands in the words of a dump.

ghost use Rattle.std.specs.Prelude.{◌≡◌};
ghost use Rattle.sx_sections.specs.Places.{place_after, place_count, place_width};

use sx_ef::section::Sums;
use sx_fields::section::Section;

/// Where signatures lie, three words each.
#[derive(Clone, Copy, Debug)]
pub struct CorrectionsPlace {
    /// How many there are.
    pub count: u64,
    /// The first word of the first one.
    pub body: usize,
    /// The first word after them.
    pub after: usize,
}

/// Where a section stands, by what it is.
#[derive(Clone, Copy, Debug)]
pub enum Place {
    /// A function. Its body is the chunk table.
    Function(Section),
    /// A packed list.
    List(Section),
    /// An Elias-Fano list.
    Sums(Sums),
    /// Signatures that rise.
    Corrections(CorrectionsPlace),
}

impl Place {
    /// The first word after the section.
    pub fn after(&self) -> usize
        ensures { result ≡ place_after self.now }
    {
        match self {
            Place::Function(section) | Place::List(section) => section.after,
            Place::Sums(sums) => sums.after,
            Place::Corrections(corrections) => corrections.after,
        }
    }

    /// How many entries the section has.
    pub fn count(&self) -> u64
        ensures { result ≡ place_count self.now }
    {
        match self {
            Place::Function(section) | Place::List(section) => section.count,
            Place::Sums(sums) => sums.count,
            Place::Corrections(corrections) => corrections.count,
        }
    }

    /// How wide they are.
    pub fn width(&self) -> u32
        ensures { result ≡ place_width self.now }
    {
        match self {
            Place::Function(section) | Place::List(section) => section.width,
            Place::Sums(_) | Place::Corrections(_) => 64,
        }
    }
}

/// What lies in the room of a place that isn't taken.
impl Default for Place {
    fn default() -> Self {
        Place::Corrections(CorrectionsPlace {
            count: 0,
            body: 0,
            after: 0,
        })
    }
}
