//! A dump as text, written as it is made: only a page of it is held, and no memory is taken.

ghost use Rattle.std.specs.Prelude.{◌≡◌, ◌+◌, ◌<◌, ◌≤◌, ◌/◌, ◌^◌, ◌++◌, ◌==◌, All, OnOk, OnErr, Some, codes, drop, length, slice_get};
ghost use Rattle.std.specs.Int.{bit_at};
ghost use Rattle.std.specs.Io.KnownBytes.{Appends};
ghost use Rattle.sx_spec.specs.Causes.{HasCause};
ghost use Rattle.sx_spec.specs.Chunks.{chunk_count as chunk_count_of};
ghost use Rattle.sx_spec.specs.Fields.{fields};
ghost use Rattle.sx_spec.specs.Show.{dump_text};
ghost use Rattle.sx_sig.specs.SignatureWords.{signature_at, signatures_at};
ghost use Rattle.sx_static.specs.Viewing.{IsViewed, viewed};
ghost use Rattle.sx_ranksel.specs.Directory.{number_at};
ghost use Rattle.sx_edge.specs.Parts.{AppendsPrefix};
ghost use Rattle.sx_sections.specs.Headers.{header_as};
ghost use Rattle.sx_sections.specs.Places.{IsCorrected, IsListed, IsSummed, Stands};
ghost use Rattle.sx_dump.specs.Opening.{IsOpened, dump_in};
ghost use Rattle.sx_dump.specs.Showing.{IsShown, chunk_lines, corrections_lines, function_lines, list_lines, number_lines, place_lines, places_lines, sums_lines, sums_read, text_in};

use crate::dump::Dump;
use std::marker::Brand;
use std::sync::ledger::{Blank, Ledger};
use sx_edge::sink::{Sink, write_all};
use sx_edge::source::Failed;
use sx_ef::encode::low_bits;
use sx_ef::section::Sums;
use sx_fields::bank::WordBank;
use sx_fields::fields::Fields;
use sx_fields::packed::Packed;
use sx_fields::section::Section;
use sx_sections::header::Header;
use sx_sections::lines::{
    Page, Sizes, put_chunk, put_correction, put_corrections, put_entry, put_function, put_header,
    put_list, put_sums,
};
use sx_sections::name::SectionName;
use sx_sections::place::{CorrectionsPlace, Place};
use sx_sections::slots::slots;
use sx_sig::{Signature, chunk_bits};
use sx_static::{FuncView, start_of, try_of};
use sx_steps::Steps;

/// How many bytes a line takes at most.
const LINE: usize = 256;

/// Makes room for a further line: writes the page and begins anew where it is nearly full.
fn make_room<O: Sink>(page: &mut Page, out: &mut O) -> Result<(), Failed>
    ensures ok { OnOk result (IsShown (O.written out.old) (O.written out.new) page.old.bytes
        page.new.bytes) }
    ensures room { OnOk result (length page.new.bytes + 256 ≤ 4096) }
    ensures failed { OnErr result (AppendsPrefix (O.written out.old) (O.written out.new)
        page.old.bytes) }
    ensures cause { HasCause (O.faults out.old) (O.faults out.new) result }
{
    if page.remaining_capacity() >= LINE {
        return Ok(());
    }
    write_all(out, page.as_str().as_bytes())?;
    page.clear();
    Ok(())
}

/// How many chunks so many pairs have.
fn chunk_count(pairs: u32) -> usize
    ensures value { result ≡ chunk_count_of pairs }
    ensures few { result ≤ 4194304 }
{
    1 << chunk_bits(pairs)
}

/// The segment and the try of chunk `i`.
fn chunk_at<B: WordBank + Copy, L: Ledger>(
    values: &FuncView<B>,
    i: usize,
    steps: &mut Steps<L>,
) -> (u64, u64)
    requires { i < chunk_count_of values.now.pairs }
    ensures chunk { slice_get (viewed (B.words_of values.now.bank) values.now.first values.now.width
        values.now.pairs).chunks i
        ≡ Some (record { segment = result.0; try = result.1 }) }
    ensures cost { steps.new ≡ steps.old + 2 }
{
    let here = values.bank.word(values.first + i, steps);
    let next = values.bank.word(values.first + i + 1, steps);
    (
        (start_of(next) - start_of(here)) / 3,
        u64::from(try_of(here)),
    )
}

/// The cells of all chunks.
fn cells_of<B: WordBank + Copy, L: Ledger>(values: &FuncView<B>, steps: &mut Steps<L>) -> Packed<B>
    ensures cells { ⟦<Packed<B> as Fields>⟧.items result
        ≡ (viewed (B.words_of values.now.bank) values.now.first values.now.width values.now.pairs).cells }
    ensures cost { steps.new ≡ steps.old + 1 }
{
    let last = values.first + chunk_count(values.pairs);
    let count = start_of(values.bank.word(last, steps));
    Packed::new(values.bank, last + 1, count as usize, values.width)
}

/// Puts a line for each chunk behind the page's text, and writes what finds no room there.
fn show_chunks<B: WordBank + Copy, O: Sink, L: Ledger>(
    values: &FuncView<B>,
    steps: &mut Steps<L>,
    page: &mut Page,
    out: &mut O,
) -> Result<(), Failed>
    ensures ok { OnOk result (IsShown (O.written out.old) (O.written out.new)
        (page.old.bytes ++ chunk_lines (viewed (B.words_of values.now.bank) values.now.first values.now.width values.now.pairs).chunks)
        page.new.bytes) }
    ensures failed { OnErr result (AppendsPrefix (O.written out.old) (O.written out.new)
        (page.old.bytes ++ chunk_lines (viewed (B.words_of values.now.bank) values.now.first values.now.width values.now.pairs).chunks)) }
    ensures cause { HasCause (O.faults out.old) (O.faults out.new) result }
    ensures counted { steps.old ≤ steps.new }
{
    'chunks: for i in 0..chunk_count(values.pairs) {
        make_room(page, out)?;
        let (segment, try_number) = chunk_at(values, i, steps);
        put_chunk(page, i as u64, segment, try_number);
    }
    Ok(())
}

/// Puts a line for each number, under a word of at most 32 bytes, behind the page's text, and
/// writes what finds no room there.
fn show_numbers<B: WordBank + Copy, O: Sink, L: Ledger>(
    word: &str,
    numbers: &Packed<B>,
    steps: &mut Steps<L>,
    page: &mut Page,
    out: &mut O,
) -> Result<(), Failed>
    requires { length word.now ≤ 32 }
    ensures ok { OnOk result (IsShown (O.written out.old) (O.written out.new)
        (page.old.bytes ++ number_lines word.now (⟦<Packed<B> as Fields>⟧.items numbers.now))
        page.new.bytes) }
    ensures failed { OnErr result (AppendsPrefix (O.written out.old) (O.written out.new)
        (page.old.bytes ++ number_lines word.now (⟦<Packed<B> as Fields>⟧.items numbers.now))) }
    ensures cause { HasCause (O.faults out.old) (O.faults out.new) result }
    ensures counted { steps.old ≤ steps.new }
{
    'numbers: for i in 0..numbers.len() {
        make_room(page, out)?;
        put_entry(page, word, i as u64, numbers.read(i, steps));
    }
    Ok(())
}

/// Puts the lines of a function of this name behind the page's text, and writes what finds no room
/// there.
fn show_function<B: WordBank + Copy, O: Sink, L: Ledger>(
    name: SectionName,
    values: &FuncView<B>,
    steps: &mut Steps<L>,
    page: &mut Page,
    out: &mut O,
) -> Result<(), Failed>
    ensures ok { OnOk result (IsShown (O.written out.old) (O.written out.new)
        (page.old.bytes ++ function_lines name (viewed (B.words_of values.now.bank)
        values.now.first values.now.width values.now.pairs))
        page.new.bytes) }
    ensures failed { OnErr result (AppendsPrefix (O.written out.old) (O.written out.new)
        (page.old.bytes ++ function_lines name (viewed (B.words_of values.now.bank)
        values.now.first values.now.width values.now.pairs))) }
    ensures cause { HasCause (O.faults out.old) (O.faults out.new) result }
    ensures counted { steps.old ≤ steps.new }
{
    let cells = cells_of(values, steps);
    let sizes = Sizes {
        chunks: chunk_count(values.pairs) as u64,
        cells: cells.len() as u64,
    };
    make_room(page, out)?;
    put_function(page, name, values.width, u64::from(values.pairs), sizes);
    show_chunks(values, steps, page, out)?;
    show_numbers("cell", &cells, steps, page, out)
}

/// Puts the lines of a list of this name behind the page's text, and writes what finds no room
/// there.
fn show_list<B: WordBank + Copy, O: Sink, L: Ledger>(
    name: SectionName,
    list: &Section,
    bank: B,
    steps: &mut Steps<L>,
    page: &mut Page,
    out: &mut O,
) -> Result<(), Failed>
    requires { IsListed (B.words_of bank) list.now }
    ensures ok { OnOk result (IsShown (O.written out.old) (O.written out.new)
        (page.old.bytes ++ list_lines name list.now.width
        (fields list.now.width list.now.count (drop list.now.body (B.words_of bank))))
        page.new.bytes) }
    ensures failed { OnErr result (AppendsPrefix (O.written out.old) (O.written out.new)
        (page.old.bytes ++ list_lines name list.now.width
        (fields list.now.width list.now.count (drop list.now.body (B.words_of bank))))) }
    ensures cause { HasCause (O.faults out.old) (O.faults out.new) result }
    ensures counted { steps.old ≤ steps.new }
{
    let numbers = Packed::new(bank, list.body, list.count as usize, list.width);
    make_room(page, out)?;
    put_list(page, name, list.count, list.width);
    show_numbers("item", &numbers, steps, page, out)
}

/// Whether a bit of the words of a bank is one, counted from the lowest bit of word `first` on.
fn is_one<B: WordBank, L: Ledger>(bank: &B, first: usize, bit: u64, steps: &mut Steps<L>) -> bool
    requires within { first + bit / 64 < length (B.words_of bank.now) }
    requires small { All (λ w. w < 2 ^ 64) (B.words_of bank.now) }
    requires long { length (B.words_of bank.now) < 2 ^ 64 }
    ensures value { result ≡ (bit_at (number_at first (B.words_of bank.now)) bit == 1) }
    ensures counted { steps.old ≤ steps.new }
{
    bank.word(first + (bit / 64) as usize, steps) >> (bit % 64) & 1 == 1
}

/// Puts a line for each number of an Elias-Fano list behind the page's text, and writes what finds
/// no room there. Each one among the upper bits stands for a number, whose high part is how many
/// zeros are before it: so no directory is needed.
fn show_sums_items<B: WordBank + Copy, O: Sink, L: Ledger>(
    sums: &Sums,
    bank: B,
    steps: &mut Steps<L>,
    page: &mut Page,
    out: &mut O,
) -> Result<(), Failed>
    requires { IsSummed (B.words_of bank) sums.now }
    ensures ok { OnOk result (IsShown (O.written out.old) (O.written out.new)
        (page.old.bytes ++ number_lines (codes "item") (sums_read (B.words_of bank) sums.now))
        page.new.bytes) }
    ensures failed { OnErr result (AppendsPrefix (O.written out.old) (O.written out.new)
        (page.old.bytes ++ number_lines (codes "item") (sums_read (B.words_of bank) sums.now))) }
    ensures cause { HasCause (O.faults out.old) (O.faults out.new) result }
    ensures counted { steps.old ≤ steps.new }
{
    let _words = bank.words();
    let width = low_bits(sums.count, sums.below);
    let low = Packed::new(bank, sums.body, sums.count as usize, width);
    let upper = sums.body + (sums.count * u64::from(width)).div_ceil(64) as usize;
    let mut i = 0;
    'bits: for bit in 0..sums.count + ((sums.below - 1) >> width) {
        if !is_one(&bank, upper, bit, steps) {
            continue;
        }
        make_room(page, out)?;
        let high = bit - i as u64;
        put_entry(page, "item", i as u64, (high << width) + low.read(i, steps));
        i += 1;
    }
    Ok(())
}

/// Puts the lines of an Elias-Fano list of this name behind the page's text, and writes what finds
/// no room there.
fn show_sums<B: WordBank + Copy, O: Sink, L: Ledger>(
    name: SectionName,
    sums: &Sums,
    bank: B,
    steps: &mut Steps<L>,
    page: &mut Page,
    out: &mut O,
) -> Result<(), Failed>
    requires { IsSummed (B.words_of bank) sums.now }
    ensures ok { OnOk result (IsShown (O.written out.old) (O.written out.new)
        (page.old.bytes ++ sums_lines name (sums_read (B.words_of bank) sums.now))
        page.new.bytes) }
    ensures failed { OnErr result (AppendsPrefix (O.written out.old) (O.written out.new)
        (page.old.bytes ++ sums_lines name (sums_read (B.words_of bank) sums.now))) }
    ensures cause { HasCause (O.faults out.old) (O.faults out.new) result }
    ensures counted { steps.old ≤ steps.new }
{
    make_room(page, out)?;
    put_sums(page, name, sums.count, sums.below);
    show_sums_items(sums, bank, steps, page, out)
}

/// Signature `i` of those that lie there in the words of a bank.
fn signature_in<B: WordBank + Copy, L: Ledger>(
    bank: B,
    corrections: &CorrectionsPlace,
    i: usize,
    steps: &mut Steps<L>,
) -> Signature
    requires stands { IsCorrected (B.words_of bank) corrections.now }
    requires there { i < corrections.now.count }
    ensures value { result ≡ signature_at (B.words_of bank) corrections.now.body i }
    ensures counted { steps.old ≤ steps.new }
{
    let _words = bank.words();
    let at = corrections.body + 3 * i;
    Signature {
        w0: bank.word(at, steps),
        w1: bank.word(at + 1, steps),
        w2: bank.word(at + 2, steps),
    }
}

/// Puts the lines of signatures of this name behind the page's text, and writes what finds no room
/// there.
fn show_corrections<B: WordBank + Copy, O: Sink, L: Ledger>(
    name: SectionName,
    corrections: &CorrectionsPlace,
    bank: B,
    steps: &mut Steps<L>,
    page: &mut Page,
    out: &mut O,
) -> Result<(), Failed>
    requires { IsCorrected (B.words_of bank) corrections.now }
    ensures ok { OnOk result (IsShown (O.written out.old) (O.written out.new)
        (page.old.bytes ++ corrections_lines name
        (signatures_at (B.words_of bank) corrections.now.body corrections.now.count))
        page.new.bytes) }
    ensures failed { OnErr result (AppendsPrefix (O.written out.old) (O.written out.new)
        (page.old.bytes ++ corrections_lines name
        (signatures_at (B.words_of bank) corrections.now.body corrections.now.count))) }
    ensures cause { HasCause (O.faults out.old) (O.faults out.new) result }
    ensures counted { steps.old ≤ steps.new }
{
    make_room(page, out)?;
    put_corrections(page, name, corrections.count);
    'signatures: for i in 0..corrections.count {
        make_room(page, out)?;
        put_correction(page, i, &signature_in(bank, corrections, i as usize, steps));
    }
    Ok(())
}

/// The function whose section lies there in the words of a bank.
fn function_in<B: WordBank + Copy>(bank: B, section: &Section) -> FuncView<B>
    requires { IsViewed (B.words_of bank) section.now.body section.now.width section.now.count }
    ensures { viewed (B.words_of result.bank) result.first result.width result.pairs
        ≡ viewed (B.words_of bank) section.now.body section.now.width section.now.count }
{
    FuncView::new(bank, section.body, section.width, section.count as u32)
}

/// Puts the lines of the section of this name that stands at a place behind the page's text, and
/// writes what finds no room there.
fn show_section<B: WordBank + Copy, O: Sink, L: Ledger>(
    name: SectionName,
    place: &Place,
    bank: B,
    steps: &mut Steps<L>,
    page: &mut Page,
    out: &mut O,
) -> Result<(), Failed>
    requires { Stands (B.words_of bank) place.now }
    ensures ok { OnOk result (IsShown (O.written out.old) (O.written out.new)
        (page.old.bytes ++ place_lines (B.words_of bank) name place.now) page.new.bytes) }
    ensures failed { OnErr result (AppendsPrefix (O.written out.old) (O.written out.new)
        (page.old.bytes ++ place_lines (B.words_of bank) name place.now)) }
    ensures cause { HasCause (O.faults out.old) (O.faults out.new) result }
    ensures counted { steps.old ≤ steps.new }
{
    match place {
        Place::Function(section) => {
            show_function(name, &function_in(bank, section), steps, page, out)
        }
        Place::List(section) => show_list(name, section, bank, steps, page, out),
        Place::Sums(sums) => show_sums(name, sums, bank, steps, page, out),
        Place::Corrections(corrections) => {
            show_corrections(name, corrections, bank, steps, page, out)
        }
    }
}

/// Puts the lines of the sections at these places, which are those of a dump with this header,
/// behind the page's text, and writes what finds no room there.
fn show_places<B: WordBank + Copy, O: Sink, L: Ledger>(
    header: &Header,
    places: &[Place],
    bank: B,
    steps: &mut Steps<L>,
    page: &mut Page,
    out: &mut O,
) -> Result<(), Failed>
    requires { IsOpened (B.words_of bank) header.now places.now }
    ensures ok { OnOk result (IsShown (O.written out.old) (O.written out.new)
        (page.old.bytes ++ places_lines (header_as header.now) (B.words_of bank) places.now)
        page.new.bytes) }
    ensures failed { OnErr result (AppendsPrefix (O.written out.old) (O.written out.new)
        (page.old.bytes ++ places_lines (header_as header.now) (B.words_of bank) places.now)) }
    ensures cause { HasCause (O.faults out.old) (O.faults out.new) result }
    ensures counted { steps.old ≤ steps.new }
{
    let all = slots(header);
    let listed = all.as_slice();
    'sections: for (slot, place) in listed.iter().zip(places) {
        show_section(slot.name, place, bank, steps, page, out)?;
    }
    Ok(())
}

impl<B: WordBank + Copy, D: WordBank> Dump<B, D> {
    /// Writes the dump as text: nine lines of its header, and a line for each of its sections.
    /// Behind that of a function comes one for each chunk, and one for each cell; behind that of a
    /// list of either sort one for each number; of each there are fewer than 2 to the power 32. At most 4,096
    /// bytes are held, and no memory is taken.
    ///
    /// # Errors
    ///
    /// `Failed` where the sink fails; a prefix of the text was written then.
    pub fn show<O: Sink>(&self, out: &mut O) -> Result<(), Failed>
        ensures ok { OnOk result (Appends (O.written out.old) (O.written out.new)
            (dump_text (dump_in (B.words_of self.now.bank)))) }
        ensures failed { OnErr result (AppendsPrefix (O.written out.old) (O.written out.new)
            (dump_text (dump_in (B.words_of self.now.bank)))) }
        ensures cause { HasCause (O.faults out.old) (O.faults out.new) result }
    {
        self.show_counted::<O, Brand>(out, Blank::new(1))
    }

    /// The same, with a count of the reads that nobody asks for.
    fn show_counted<O: Sink, L: Ledger>(&self, out: &mut O, blank: Blank) -> Result<(), Failed>
        requires name { blank.name ≡ L.name }
        requires parts { blank.parts ≡ L.parts }
        requires some { 0 < blank.parts }
        ensures ok { OnOk result (Appends (O.written out.old) (O.written out.new)
            (text_in (B.words_of self.now.bank))) }
        ensures failed { OnErr result (AppendsPrefix (O.written out.old) (O.written out.new)
            (text_in (B.words_of self.now.bank))) }
        ensures cause { HasCause (O.faults out.old) (O.faults out.new) result }
    {
        let mut steps = Steps::<L>::new(blank);
        let mut page = Page::new();
        put_header(&mut page, &self.header);
        let places = self.places.as_slice();
        show_places(&self.header, places, self.bank, &mut steps, &mut page, out)?;
        write_all(out, page.as_str().as_bytes())
    }
}
