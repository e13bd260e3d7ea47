//! Function sections: a word with the width of the cells, a word with the number of pairs, the chunk table, and the cells as
//! packed fields.

ghost use Rattle.std.specs.Prelude.{◌≡◌, ◌+◌, ◌<◌, ◌≤◌, ◌^◌, IfOk, drop, length};
ghost use Rattle.sx_spec.specs.Chunks.{chunk_count as chunk_count_of};
ghost use Rattle.sx_spec.specs.Layout.{function_of, function_section, is_chunk as is_chunk_of, is_table as is_table_of, neighbours, section_of, section_size, table_start, table_try};
ghost use Rattle.std.specs.List.{list_all};
ghost use Rattle.sx_static.specs.FunctionSections.{function_found, size_found};
ghost use Rattle.sx_static.specs.Viewing.{IsViewed, viewed};

use sx_fields::section::{
    COUNT_CHECK, LENGTH_CHECK, PADDING_CHECK, Section, WIDTH_CHECK, is_zero_after,
};
use sx_sig::chunk_bits;

/// The check of the chunk table.
pub const TABLE_CHECK: u8 = 14;

/// How many bits of a word of a chunk table name a cell. The others name a try.
pub(crate) const START_BITS: u32 = 58;

/// The first cell that a word of a chunk table names.
#[inline(always)]
pub fn start_of(word: u64) -> u64
    ensures { result ≡ table_start word }
{
    word % (1 << START_BITS)
}

/// The try that a word of a chunk table names, at most 63.
#[inline(always)]
pub fn try_of(word: u64) -> u32
    ensures value { result ≡ table_try word }
    ensures few { result ≤ 63 }
{
    (word >> START_BITS) as u32
}

/// Whether a chunk's word and the next fit: starts don't fall, the cells are three segments, and an
/// empty chunk has try 0.
fn is_chunk(word: u64, next: u64) -> bool
    ensures { result ≡ is_chunk_of (word, next) }
{
    let start = start_of(word);
    let end = start_of(next);
    start <= end && (end - start) % 3 == 0 && (start < end || try_of(word) == 0)
}

/// Whether each word of a table that is not empty and the next are a chunk.
fn are_chunks(table: &[u64]) -> bool
    requires { 0 < length table.now }
    ensures { result ≡ list_all is_chunk_of (neighbours table.now) }
{
    for i in 0..table.len() - 1 {
        if !is_chunk(table[i], table[i + 1]) {
            return false;
        }
    }
    true
}

/// Whether words, of which there is at least one, are a chunk table.
fn is_table(table: &[u64]) -> bool
    requires { 0 < length table.now }
    ensures { result ≡ is_table_of table.now }
{
    let last = table[table.len() - 1];
    if start_of(table[0]) != 0 {
        return false;
    }
    if try_of(last) != 0 {
        return false;
    }
    if start_of(last) > u64::from(u32::MAX) {
        return false;
    }
    are_chunks(table)
}

/// How many chunks so many pairs have.
pub(crate) fn chunk_count(pairs: u32) -> usize
    ensures value { result ≡ chunk_count_of pairs }
    ensures few { result ≤ 4194304 }
{
    1 << chunk_bits(pairs)
}

/// How many words the function section at the front of the words has, or the number of the first check that fails.
fn section_words(
    words: &[u64],
    least: u64,
    most: u64,
    low_width: u32,
    high_width: u32,
) -> Result<usize, u8>
    requires few { most < 2 ^ 32 }
    requires narrow { high_width ≤ 64 }
    ensures { result ≡ size_found least most low_width high_width words.now }
{
    if words.len() < 2 {
        return Err(LENGTH_CHECK);
    }
    let width = words[0];
    let pairs = words[1];
    if pairs < least || pairs > most {
        return Err(COUNT_CHECK);
    }
    if width < u64::from(low_width) || width > u64::from(high_width) {
        return Err(WIDTH_CHECK);
    }
    let chunks = chunk_count(pairs as u32);
    if words.len() < chunks + 3 {
        return Err(LENGTH_CHECK);
    }
    let table = &words[2..chunks + 3];
    if !is_table(table) {
        return Err(TABLE_CHECK);
    }
    let bits = start_of(table[chunks]) * width;
    let size = bits.div_ceil(64) as usize;
    let cells = &words[chunks + 3..];
    if cells.len() < size {
        return Err(LENGTH_CHECK);
    }
    if !is_zero_after(bits, &cells[..size]) {
        return Err(PADDING_CHECK);
    }
    Ok(chunks + 3 + size)
}

/// The function section that begins at word `at`, of `least` to `most` pairs, with cells of
/// `low_width` to `high_width` bits. The section's body is its chunk table.
///
/// # Errors
/// The number of the first check that fails, in this order: the two words before the table are there (11), the number of
/// pairs is in its range (12), the width is in its range (13), the words of the table are there (11), they are a chunk table
/// (14), the words of the cells are there (11), the bits after the last cell are zero (15).
pub fn function_check(
    words: &[u64],
    at: usize,
    least: u64,
    most: u64,
    low_width: u32,
    high_width: u32,
) -> Result<Section, u8>
    requires inside { at ≤ length words.now }
    requires few { most < 2 ^ 32 }
    requires narrow { high_width ≤ 64 }
    ensures found { result ≡ function_found least most low_width high_width words.now at }
    ensures section { IfOk result (λ s.
        section_of (function_of least most low_width high_width) (drop at words.now)
        ≡ function_section (viewed words.now s.body s.width s.count)) }
    ensures stands { IfOk result (λ s. IsViewed words.now s.body s.width s.count) }
    ensures size { IfOk result (λ s. s.after
        ≡ at + section_size (function_of least most low_width high_width) (drop at words.now)) }
    ensures after { IfOk result (λ s. s.after ≤ length words.now) }
    ensures narrow { IfOk result (λ s. s.width ≤ 64) }
    ensures few { IfOk result (λ s. s.count < 2 ^ 32) }
{
    let rest = &words[at..];
    match section_words(rest, least, most, low_width, high_width) {
        Ok(size) => Ok(Section {
            width: rest[0] as u32,
            count: rest[1],
            body: at + 2,
            after: at + size,
        }),
        Err(check) => Err(check),
    }
}
