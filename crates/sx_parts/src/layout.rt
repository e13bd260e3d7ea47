//! The words of a dump, from its header and its sections.

ghost use Rattle.std.specs.Prelude.{◌≡◌, ◌+◌, ◌<◌, ◌≤◌, ◌^◌, ◌∷◌, ◌++◌, All, IfOk, OnOk, length, map, flat_map};
ghost use Rattle.std.specs.List.{AllByRecursion};
ghost use Rattle.sx_spec.specs.Layout.{layout, signature_words};
ghost use Rattle.sx_spec.specs.Parts.{least_width as least_width_of};
ghost use Rattle.sx_sections.specs.Headers.{header_as};
ghost use Rattle.sx_parts.specs.Sectioning.{IsWhole, held_words, section_built};

use crate::numbers::least_width;
use std::alloc::{AllocError, Global};
use sx_ef::encode::EfBuf;
use sx_fields::fields::{Fields, FieldsMut};
use sx_fields::packed_buf::PackedBuf;
use sx_sections::header::{FRONT, Header, front_words};
use sx_sig::Signature;
use sx_static::FuncBuf;

/// A section that is built.
#[derive(Drop)]
pub enum SectionBuf {
    /// A function.
    Function(FuncBuf),
    /// A list of numbers.
    Numbers(PackedBuf),
    /// A list of sums.
    Sums(EfBuf),
    /// Signatures, which rise.
    Corrections(Vec<Signature>),
}

/// How many words a section has.
#[tactic(auto, using(crate::proofs::Layouts::signatures_size))]
fn size_of(section: &SectionBuf) -> usize
    requires { length (held_words section.now) < 2 ^ 32 }
    ensures { result ≡ length (held_words section.now) }
{
    match section {
        SectionBuf::Function(function) => {
            2 + function.table.len() + function.cells.words().len()
        }
        SectionBuf::Numbers(numbers) => 2 + numbers.words().len(),
        SectionBuf::Sums(sums) => 2 + sums.low.len() + sums.upper.len(),
        SectionBuf::Corrections(sigs) => 1 + 3 * sigs.len(),
    }
}

/// How many words sections have together.
fn all_sizes(sections: &[SectionBuf]) -> usize
    requires { length (flat_map held_words sections.now) < 2 ^ 32 }
    ensures { result ≡ length (flat_map held_words sections.now) }
{
    let mut count = 0;
    for section in sections {
        count += size_of(section);
    }
    count
}

/// Puts the words of a function last: its width, the number of its pairs, its table and its cells.
fn push_function(words: &mut Vec<u64>, function: &FuncBuf) -> Result<(), AllocError>
    ensures { OnOk result (words.new.items
        ≡ words.old.items ++ held_words (SectionBuf.Function function.now)) }
{
    words.push(u64::from(function.width))?;
    words.push(u64::from(function.pairs))?;
    words.extend_from_slice(&function.table)?;
    words.extend_from_slice(function.cells.words())?;
    Ok(())
}

/// Puts the words of a list last: the number of its numbers, their width and the numbers.
fn push_list(words: &mut Vec<u64>, numbers: &PackedBuf) -> Result<(), AllocError>
    ensures { OnOk result (words.new.items
        ≡ words.old.items ++ held_words (SectionBuf.Numbers numbers.now)) }
{
    words.push(numbers.len() as u64)?;
    words.push(u64::from(numbers.width()))?;
    words.extend_from_slice(numbers.words())?;
    Ok(())
}

/// Puts the words of an Elias-Fano list last: the number of its numbers, the number above the last of
/// them, the low words and the upper words.
fn push_sums(words: &mut Vec<u64>, sums: &EfBuf) -> Result<(), AllocError>
    ensures { OnOk result (words.new.items
        ≡ words.old.items ++ held_words (SectionBuf.Sums sums.now)) }
{
    words.push(sums.count)?;
    words.push(sums.below)?;
    words.extend_from_slice(&sums.low)?;
    words.extend_from_slice(&sums.upper)?;
    Ok(())
}

/// Puts the words of signatures last: their number, and three words for each.
fn push_signatures(words: &mut Vec<u64>, sigs: &[Signature]) -> Result<(), AllocError>
    ensures { OnOk result (words.new.items
        ≡ words.old.items ++ length sigs.now ∷ flat_map signature_words sigs.now) }
{
    words.push(sigs.len() as u64)?;
    for sig in sigs {
        words.push(sig.w0)?;
        words.push(sig.w1)?;
        words.push(sig.w2)?;
    }
    Ok(())
}

/// Puts the words of a section last.
fn push_section(words: &mut Vec<u64>, section: &SectionBuf) -> Result<(), AllocError>
    ensures { OnOk result (words.new.items ≡ words.old.items ++ held_words section.now) }
{
    match section {
        SectionBuf::Function(function) => push_function(words, function),
        SectionBuf::Numbers(numbers) => push_list(words, numbers),
        SectionBuf::Sums(sums) => push_sums(words, sums),
        SectionBuf::Corrections(sigs) => push_signatures(words, sigs),
    }
}

/// Puts the words of the sections last, one section after the other.
fn push_sections(words: &mut Vec<u64>, sections: &[SectionBuf]) -> Result<(), AllocError>
    ensures { OnOk result (words.new.items
        ≡ words.old.items ++ flat_map held_words sections.now) }
{
    for section in sections {
        push_section(words, section)?;
    }
    Ok(())
}

/// The words of the dump with this header and these sections. All memory is taken at once.
///
/// # Errors
///
/// Want of memory.
pub fn dump_words(
    alloc: Global,
    header: &Header,
    sections: &[SectionBuf],
) -> Result<Vec<u64>, AllocError>
    requires few { length (flat_map held_words sections.now) < 2 ^ 32 }
    requires whole { AllByRecursion IsWhole sections.now }
    ensures { IfOk result (λ words. words.items ≡ layout (record {
      header = header_as header.now;
      sections = map section_built sections.now;
    })) }
{
    let count = FRONT + all_sizes(sections);
    let mut words = Vec::with_capacity(alloc, count)?;
    words.extend_from_slice(&front_words(header, count as u64))?;
    push_sections(&mut words, sections)?;
    Ok(words)
}

/// Numbers of `width` bits, at most 64, packed.
///
/// # Errors
///
/// Want of memory.
pub fn packed_list(alloc: Global, numbers: &[u64], width: u32) -> Result<PackedBuf, AllocError>
    requires narrow { width ≤ 64 }
    requires few { length numbers.now < 2 ^ 32 }
    requires fit { All (λ v. v < 2 ^ width) numbers.now }
    ensures width { IfOk result (λ list. list.width ≡ width) }
    ensures items { IfOk result (λ list. list.items ≡ numbers.now) }
{
    let mut list = PackedBuf::zeroed(alloc, numbers.len(), width)?;
    for (i, number) in numbers.iter().enumerate() {
        list.set(i, *number);
    }
    Ok(list)
}

/// Numbers packed, as wide as the greatest of them.
///
/// # Errors
///
/// Want of memory.
pub fn least_list(alloc: Global, numbers: &[u64]) -> Result<PackedBuf, AllocError>
    requires { length numbers.now < 2 ^ 32 }
    ensures width { IfOk result (λ list. list.width ≡ least_width_of numbers.now) }
    ensures items { IfOk result (λ list. list.items ≡ numbers.now) }
{
    packed_list(alloc, numbers, least_width(numbers))
}
