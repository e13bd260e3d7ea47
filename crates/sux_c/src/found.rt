//! What the checks of a dump found, as numbers: its header, and where its sections stand.

ghost use Rattle.std.specs.Prelude.{◌≡◌, ◌≤◌};
ghost use Rattle.sux_c.specs.Headers.{header_in};
ghost use Rattle.sux_c.specs.Found.{places_in};

use crate::header::SuxHeader;
use crate::place::SuxPlace;
use sx_sections::open::Opened;
use sx_sections::place::Place;
use sx_sections::walk::Places;

/// How many sections a dump has at most.
const MOST: usize = 11;

/// The header of a dump, and the places of its sections, of which there are `count`.
#[repr(C)]
#[derive(Clone, Copy)]
pub struct SuxFound {
    pub header: SuxHeader,
    pub count: usize,
    pub places: [SuxPlace; 11],
    /// The length of the longest extent of the nodes of a dump of kind `zfast`.
    pub longest: u32,
}

impl SuxFound {
    /// The numbers of what was found, and the length of the longest extent.
    pub fn of(opened: &Opened, longest: u32) -> SuxFound
        ensures header { header_in result.header ≡ opened.now.header }
        ensures places { places_in result ≡ opened.now.places.items }
        ensures few { result.count ≤ 11 }
        ensures longest { result.longest ≡ longest }
    {
        let listed = opened.places.as_slice();
        let mut places = [SuxPlace::of(&Place::default()); MOST];
        'sections: for i in 0..listed.len() {
            places[i] = SuxPlace::of(&listed[i]);
        }
        SuxFound {
            header: SuxHeader::of(&opened.header),
            count: listed.len(),
            places,
            longest,
        }
    }

    /// What was found, of which these are the numbers.
    pub fn to_opened(&self) -> Opened
        requires { self.now.count ≤ 11 }
        ensures header { result.header ≡ header_in self.now.header }
        ensures places { result.places.items ≡ places_in self.now }
    {
        let mut places = Places::new();
        for kept in &self.places[..self.count] {
            places.push(kept.to_place());
        }
        Opened {
            header: self.header.to_header(),
            places,
        }
    }
}
