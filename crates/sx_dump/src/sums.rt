//! The Elias-Fano lists of a dump, with directories that are given.

ghost use Rattle.std.specs.Prelude.{IfOk};
ghost use Rattle.sx_dump.specs.Opening.{IsOpened, IsSumsAt};
ghost use Rattle.sx_dump.specs.Rooms.{AreSumsRooms, IsSumsPlace};
ghost use Rattle.sx_dump.specs.Viewing.{ReadsSums};

use std::alloc::{AllocError, Global};
use sx_ef::section::Sums;
use sx_ef::view::EliasFano;
use sx_fields::bank::WordBank;
use sx_ranksel::directories::Directories;
use sx_sections::open::Opened;
use sx_sections::place::Place;

/// Where section `i`, an Elias-Fano list, stands.
fn sums_place(opened: &Opened, i: usize) -> Sums
    requires { IsSumsAt opened.now.places.items i }
    ensures { IsSumsPlace opened.now.places.items i result }
{
    match &opened.places.as_slice()[i] {
        Place::Sums(sums) => *sums,
        Place::Function(_) | Place::List(_) | Place::Corrections(_) => unreachable!(),
    }
}

/// The directories of section `i`, an Elias-Fano list, of the dump in a bank of words that were opened.
///
/// # Errors
/// Only for want of memory.
pub(crate) fn directories_at<B: WordBank + Copy>(
    alloc: Global,
    bank: B,
    opened: &Opened,
    i: usize,
) -> Result<Directories<Vec<u64>>, AllocError>
    requires opened { IsOpened (B.words_of bank) opened.now.header opened.now.places.items }
    requires sums { IsSumsAt opened.now.places.items i }
    ensures { IfOk result (λ d. AreSumsRooms (B.words_of bank) opened.now.places.items i
        d.directory.items d.groups.items d.places.items) }
{
    let sums = sums_place(opened, i);
    EliasFano::directories(alloc, bank, sums.body, sums.count, sums.below)
}

/// The numbers of section `i`, an Elias-Fano list, of the dump in a bank of words that were opened.
pub(crate) fn sums_at<B: WordBank + Copy, D: WordBank>(
    bank: B,
    opened: &Opened,
    i: usize,
    directories: Directories<D>,
) -> EliasFano<B, D>
    requires opened { IsOpened (B.words_of bank) opened.now.header opened.now.places.items }
    requires sums { IsSumsAt opened.now.places.items i }
    requires made { AreSumsRooms (B.words_of bank) opened.now.places.items i
        (D.words_of directories.directory) (D.words_of directories.groups)
        (D.words_of directories.places) }
    ensures { ReadsSums (B.words_of bank) i result }
{
    let sums = sums_place(opened, i);
    EliasFano::over(bank, sums.body, sums.count, sums.below, directories)
}
