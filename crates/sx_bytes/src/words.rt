//! Words and their bytes, the lowest byte of each word first.

ghost use Rattle.std.specs.Prelude.{◌≡◌, ◌*◌, ◌^◌, ◌<◌, ◌≤◌, ◌++◌, All, IfOk, OnOk, OnErr, length, take, drop};
ghost use Rattle.std.specs.Int.{to_le_bytes, from_le_bytes, w64};
ghost use Rattle.sx_spec.specs.Causes.{HasCause};
ghost use Rattle.sx_spec.specs.Layout.{words_bytes, bytes_words};
ghost use Rattle.sx_edge.specs.Shelf.{writing, AppendsFile, AppendsFilePrefix};

use byteorder::{ByteOrder, LittleEndian};
use std::alloc::{AllocError, Global};
use sx_edge::shelf::{Shelf, write_file};
use sx_edge::source::Failed;

/// How many words are written at a time.
const PIECE: usize = 1024;

/// The eight bytes of a word.
fn word_bytes(word: u64) -> [u8; 8]
    ensures { result ≡ to_le_bytes w64 word }
{
    let mut bytes = [0u8; 8];
    LittleEndian::write_u64(&mut bytes, word);
    bytes
}

/// Puts the bytes of the words at the front of a buffer, which has room for them.
fn fill(buffer: &mut [u8], words: &[u64])
    requires { 8 * length words.now ≤ length buffer.old }
    ensures { take (8 * length words.now) buffer.new ≡ words_bytes words.now }
{
    for (i, word) in words.iter().enumerate() {
        buffer[8 * i..8 * i + 8].copy_from_slice(&word_bytes(*word));
    }
}

/// Appends the bytes of the words to the file being written, 8,192 at a time. Where the shelf
/// fails, a prefix was appended. It takes no memory.
///
/// # Errors
///
/// `Failed` where a write fails.
pub fn put_words<F: Shelf>(files: &mut F, words: &[u64]) -> Result<(), Failed>
    requires { F.in_use files.old ≡ writing }
    ensures ok { OnOk result (AppendsFile (F.writing_to files.old) (F.files files.old)
        (F.files files.new) (words_bytes words.now)) }
    ensures failed { OnErr result (AppendsFilePrefix (F.writing_to files.old) (F.files files.old)
        (F.files files.new) (words_bytes words.now)) }
    ensures stays { F.in_use files.new ≡ writing }
    ensures same { F.writing_to files.new ≡ F.writing_to files.old }
    ensures cause { HasCause (F.faults files.old) (F.faults files.new) result }
{
    let mut buffer = [0u8; 8 * PIECE];
    put_pieces(files, words, &mut buffer)
}

/// Appends the bytes of the words by way of a buffer of 8,192 bytes.
fn put_pieces<F: Shelf>(files: &mut F, words: &[u64], buffer: &mut [u8]) -> Result<(), Failed>
    requires writing { F.in_use files.old ≡ writing }
    requires room { length buffer.old ≡ 8192 }
    ensures ok { OnOk result (AppendsFile (F.writing_to files.old) (F.files files.old)
        (F.files files.new) (words_bytes words.now)) }
    ensures failed { OnErr result (AppendsFilePrefix (F.writing_to files.old) (F.files files.old)
        (F.files files.new) (words_bytes words.now)) }
    ensures stays { F.in_use files.new ≡ writing }
    ensures same { F.writing_to files.new ≡ F.writing_to files.old }
    ensures cause { HasCause (F.faults files.old) (F.faults files.new) result }
{
    'pieces: for i in 0..words.len().div_ceil(PIECE) {
        let piece = &words[PIECE * i..words.len().min(PIECE * i + PIECE)];
        fill(buffer, piece);
        write_file(files, &buffer[..8 * piece.len()])?;
    }
    Ok(())
}

/// The word in the first eight bytes, or in all of them with zero bytes behind.
fn word_in(bytes: &[u8]) -> u64
    ensures { result ≡ from_le_bytes w64 (take 8 bytes.now) }
{
    if bytes.len() >= 8 {
        return LittleEndian::read_u64(&bytes[..8]);
    }
    let mut padded = [0u8; 8];
    padded[..bytes.len()].copy_from_slice(bytes);
    LittleEndian::read_u64(&padded)
}

/// Word `i` of bytes.
fn word_at(bytes: &[u8], i: usize) -> u64
    requires { 8 * i ≤ length bytes.now }
    ensures { result ≡ from_le_bytes w64 (take 8 (drop (8 * i) bytes.now)) }
{
    word_in(&bytes[8 * i..])
}

/// Puts the words of bytes behind those that are there, the last one filled up with zero bytes.
///
/// # Errors
///
/// Want of memory.
pub fn push_words(words: &mut Vec<u64>, bytes: &[u8]) -> Result<(), AllocError>
    ensures words { OnOk result (words.new.items ≡ words.old.items ++ bytes_words bytes.now) }
    ensures small { OnOk result (All (λ w. w < 2 ^ 64) words.old.items → All
        (λ w. w < 2 ^ 64) words.new.items) }
{
    for i in 0..bytes.len().div_ceil(8) {
        words.push(word_at(bytes, i))?;
    }
    Ok(())
}

/// The words of bytes, the last one filled up with zero bytes.
///
/// # Errors
///
/// Want of memory.
pub fn words_of(alloc: Global, bytes: &[u8]) -> Result<Vec<u64>, AllocError>
    ensures words { IfOk result (λ words. words.items ≡ bytes_words bytes.now) }
    ensures small { IfOk result (λ words. All (λ w. w < 2 ^ 64) words.items) }
{
    let mut words = Vec::with_capacity(alloc, bytes.len().div_ceil(8))?;
    push_words(&mut words, bytes)?;
    Ok(words)
}
