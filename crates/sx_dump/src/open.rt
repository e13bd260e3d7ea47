//! Dumps that are opened: whether bytes are a dump, or which check is the first that fails.

ghost use Rattle.std.specs.Prelude.{◌≡◌, ℕ, List, IfErr, IfOk, Ok, length};
ghost use Rattle.std.specs.Int.{div_ceil};
ghost use Rattle.sx_spec_program.specs.Offer.{opened_by};
ghost use Rattle.sx_spec_program.specs.Program.{sux_offer};
ghost use Rattle.sx_sections.specs.Openings.{IsFile};
ghost use Rattle.sx_dump.specs.Opening.{IsFault, IsRefused, dump_in, opened_words};

use crate::dump::Dump;
use std::alloc::Global;
use sx_fields::bank::{WordBank, WordsBuf};
use sx_kinds::offer;
use sx_sections::open::open_offered;
use thiserror::Error;

/// Why bytes are not opened as a dump.
#[derive(Debug, Drop, Clone, Copy, PartialEq, Eq, Error)]
pub enum OpenFault {
    /// The check of this number is the first that fails.
    #[error("check {check} fails")]
    Malformed { check: u8 },
    /// No memory is left. Every check has passed.
    #[error("no memory")]
    Memory,
}

/// Opens a file of so many bytes by its words, as a dump that answers from a bank of the same
/// words. Where the bytes don't fill the last word, check 1 fails, whatever stands
/// in the rest of it. Memory is taken only for directories of Elias-Fano lists and
/// for nodes of hollow tries, and after every check.
///
/// # Errors
/// The number of the first check that fails: 1 to 10 of the file's size and its header, where kinds
/// that aren't opened fail check 4; 11 to 17 of the sections; 18 where words follow them. Where none
/// fails, want of memory.
pub fn open_dump<B: WordBank + Copy>(
    alloc: Global,
    words: &[u64],
    bytes: u64,
    bank: B,
) -> Result<Dump<B, WordsBuf>, OpenFault>
    requires size { length words.now ≡ div_ceil bytes 8 }
    requires bank { B.words_of bank ≡ words.now }
    ensures found { IfOk result
        (λ d. opened_words words.now bytes ≡ Ok (dump_in (B.words_of d.bank))) }
    ensures refused { IfErr result (IsRefused words.now bytes) }
    ensures opened { IfOk result (λ d. (file : List ℕ) → IsFile words.now bytes file
        → opened_by sux_offer file ≡ Ok (dump_in (B.words_of d.bank))) }
    ensures bank { IfOk result (λ d. d.bank ≡ bank) }
    ensures fault { IfErr result (λ fault. (file : List ℕ)
        → IsFile words.now bytes file → IsFault words.now file fault) }
{
    match open_offered(words, bytes, offer::kinds(), offer::signed()) {
        Ok(opened) => match Dump::new(alloc, bank, opened) {
            Ok(dump) => Ok(dump),
            Err(AllocError) => Err(OpenFault::Memory),
        },
        Err(check) => Err(OpenFault::Malformed {
            check: check.number(),
        }),
    }
}
