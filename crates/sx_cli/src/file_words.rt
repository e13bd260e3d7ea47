//! The words of a file, read in pieces: its bytes are held beside them one piece at a time.
ghost use Rattle.std.specs.Prelude.{◌≡◌, ◌≤◌, IfOk, Err, length, vec_len};
ghost use Rattle.sx_edge.specs.Shelf.{reading};
ghost use Rattle.sx_spec.specs.Causes.{Rose, StaysUnless};
ghost use Rattle.sx_spec.specs.World.{KeepsFiles};
ghost use Rattle.sx_cli.specs.FileWords.{file_failed, ReadsWords, TakesWords};

use crate::dump_file::DumpFile;
use std::alloc::{AllocError, Global};
use sx_bytes::push_words;
use sx_dump::MAX_BYTES;
use sx_edge::shelf::{Shelf, fill_buffer};
use sx_edge::source::Failed;

/// The bytes of a piece.
const PIECE: usize = 65536;

/// How many pieces the longest dump has.
const PIECES: u64 = 16384;

/// Why a file was not read.
#[derive(Clone, Copy, Debug, PartialEq, Eq)]
pub enum ReadFault {
    /// The shelf has failed.
    Failed,
    /// There is no memory for the words.
    Memory,
}

impl From<Failed> for ReadFault {
    ghost use Rattle.std.specs.Prelude.{◌≡◌};
    ghost use Rattle.sx_cli.specs.declared.file_words.ReadFault.TheVariants.{Failed as HasFailed};

    ghost from_gives = { λ _ e. e ≡ HasFailed };

    fn from(_: Failed) -> ReadFault {
        ReadFault::Failed
    }
}

impl From<AllocError> for ReadFault {
    ghost use Rattle.std.specs.Prelude.{◌≡◌};
    ghost use Rattle.sx_cli.specs.declared.file_words.ReadFault.TheVariants.{Memory};

    ghost from_gives = { λ _ e. e ≡ Memory };

    fn from(_: AllocError) -> ReadFault {
        ReadFault::Memory
    }
}

/// Room for a piece.
fn piece_room(alloc: Global) -> Result<Vec<u8>, AllocError>
    ensures { IfOk result (λ piece. vec_len piece ≡ PIECE) }
{
    vec![in alloc; 0u8; PIECE]
}

/// Reads the next piece of the file, puts its words behind the others, and gives the number of its
/// bytes: as many as the piece has room for, unless the file has no more.
fn read_piece<F: Shelf>(
    files: &mut F,
    words: &mut Vec<u64>,
    piece: &mut [u8],
) -> Result<usize, ReadFault>
    requires { F.in_use files.old ≡ reading }
    ensures took { IfOk result (λ count. TakesWords (F.rest files.old) (F.rest files.new)
        words.old.items words.new.items (length piece.old) count) }
    ensures stays { F.in_use files.new ≡ reading }
    ensures files { KeepsFiles (F.files files.old) (F.files files.new) }
    ensures failed { result ≡ Err ReadFault.Failed
        → Rose (F.faults files.old) (F.faults files.new) }
    ensures counts { StaysUnless (file_failed result) (F.faults files.old) (F.faults files.new) }
{
    let count = fill_buffer(files, piece)?;
    push_words(words, &piece[..count])?;
    Ok(count)
}

/// Reads the words of the file being read, of at most one byte more than a dump may have. Beside
/// them 65,536 bytes are held.
pub fn read_words<F: Shelf>(alloc: Global, files: &mut F) -> Result<DumpFile, ReadFault>
    requires { F.in_use files.old ≡ reading }
    ensures words { IfOk result (λ file.
        ReadsWords (F.rest files.old) file.words.items file.bytes) }
    ensures stays { F.in_use files.new ≡ reading }
    ensures files { KeepsFiles (F.files files.old) (F.files files.new) }
    ensures failed { result ≡ Err ReadFault.Failed
        → Rose (F.faults files.old) (F.faults files.new) }
    ensures counts { StaysUnless (file_failed result) (F.faults files.old) (F.faults files.new) }
{
    let mut words = Vec::new(alloc);
    let mut piece = piece_room(alloc)?;
    'pieces: for i in 0..PIECES {
        let count = read_piece(files, &mut words, &mut piece)?;
        if count < PIECE {
            let bytes = PIECE as u64 * i + count as u64;
            return Ok(DumpFile { words, bytes });
        }
    }
    // a byte behind the longest dump
    let mut last = [0; 1];
    let count = read_piece(files, &mut words, &mut last)?;
    let bytes = MAX_BYTES + count as u64;
    Ok(DumpFile { words, bytes })
}
