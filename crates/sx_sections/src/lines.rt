//! The lines of a dump's text, put on a page that has room for them.

ghost use Rattle.std.specs.Prelude.{◌≡◌, ◌+◌, ◌≤◌, ◌++◌, decimal, length};
ghost use Rattle.sx_sections.specs.Headers.{header_as};
ghost use Rattle.sx_sections.specs.Lines as lines;
ghost use Rattle.sx_sections.specs.Names.{name_text};

use crate::header::Header;
use crate::name::SectionName;
use arrayvec::ArrayString;
use itoa::Buffer;
use sx_kinds::kinds::{kind_word, method_word};
use sx_spec::Signature;

/// Text that is held before it is written.
pub type Page = ArrayString<4096>;

/// How many chunks and cells a function has.
#[derive(Clone, Copy, Debug)]
pub struct Sizes {
    pub chunks: u64,
    pub cells: u64,
}

/// Puts a label and a number on the page.
fn put_number(page: &mut Page, label: &str, number: u64)
    requires { length page.old.bytes + length label.now + 20 ≤ 4096 }
    ensures text { page.new.bytes ≡ page.old.bytes ++ (label.now ++ decimal number) }
    ensures short { length page.new.bytes ≤ length page.old.bytes + length label.now + 20 }
{
    let mut buffer = Buffer::new();
    page.push_str(label);
    page.push_str(buffer.format(number));
}

/// Puts two words of at most 32 bytes.
#[tactic(auto, unfolding(crate::specs::Lines::words_line))]
fn put_words(page: &mut Page, first: &str, second: &str)
    requires room { length page.old.bytes + 256 ≤ 4096 }
    requires first { length first.now ≤ 32 }
    requires second { length second.now ≤ 32 }
    ensures text { page.new.bytes ≡ page.old.bytes ++ lines.words_line first.now second.now }
    ensures short { length page.new.bytes ≤ length page.old.bytes + 66 }
{
    page.push_str(first);
    page.push_str(" ");
    page.push_str(second);
    page.push_str("\n");
}

/// Puts a word of at most 32 bytes and a number.
#[tactic(auto, unfolding(crate::specs::Lines::number_line))]
pub fn put_number_line(page: &mut Page, word: &str, number: u64)
    requires room { length page.old.bytes + 256 ≤ 4096 }
    requires short { length word.now ≤ 32 }
    ensures text { page.new.bytes ≡ page.old.bytes ++ lines.number_line word.now number }
    ensures short { length page.new.bytes ≤ length page.old.bytes + 66 }
{
    page.push_str(word);
    put_number(page, " ", number);
    page.push_str("\n");
}

/// Puts the nine lines of a header.
pub fn put_header(page: &mut Page, header: &Header)
    requires { length page.old.bytes + 1024 ≤ 4096 }
    ensures text { page.new.bytes ≡ page.old.bytes ++ lines.header_lines (header_as header.now) }
    ensures short { length page.new.bytes ≤ length page.old.bytes + 1024 }
{
    let plan = &header.plan;
    put_words(page, "layout", "1");
    put_words(page, "kind", kind_word(plan.kind));
    put_words(page, "method", method_word(plan.method));
    put_number_line(page, "keys", u64::from(header.keys));
    put_number_line(page, "seed", header.seed);
    put_number_line(page, "sig-bits", u64::from(plan.sig_bits));
    put_number_line(page, "log-bucket", u64::from(plan.log_bucket));
    put_number_line(page, "signed", u64::from(plan.signed));
    put_number_line(page, "handle-bits", u64::from(plan.handle_bits));
}

/// Puts entry `i` of a section: a word of at most 32 bytes, its place and a number.
#[tactic(auto, unfolding(crate::specs::Lines::entry_line))]
pub fn put_entry(page: &mut Page, word: &str, i: u64, number: u64)
    requires room { length page.old.bytes + 256 ≤ 4096 }
    requires short { length word.now ≤ 32 }
    ensures { page.new.bytes ≡ page.old.bytes ++ lines.entry_line word.now i number }
{
    page.push_str(word);
    put_number(page, " ", i);
    put_number(page, " ", number);
    page.push_str("\n");
}

/// Puts chunk `i` of a function.
#[tactic(auto, unfolding(crate::specs::Lines::chunk_line))]
pub fn put_chunk(page: &mut Page, i: u64, segment: u64, try_number: u64)
    requires { length page.old.bytes + 256 ≤ 4096 }
    ensures { page.new.bytes
        ≡ page.old.bytes ++ lines.chunk_line i (record { segment = segment; try = try_number }) }
{
    put_number(page, "chunk ", i);
    put_number(page, " segment ", segment);
    put_number(page, " try ", try_number);
    page.push_str("\n");
}

/// Puts signature `i` of the corrections.
#[tactic(auto, unfolding(crate::specs::Lines::correction_line))]
pub fn put_correction(page: &mut Page, i: u64, sig: &Signature)
    requires { length page.old.bytes + 256 ≤ 4096 }
    ensures { page.new.bytes ≡ page.old.bytes ++ lines.correction_line i sig.now }
{
    put_number(page, "correction ", i);
    put_number(page, " ", sig.w0);
    put_number(page, " ", sig.w1);
    put_number(page, " ", sig.w2);
    page.push_str("\n");
}

/// The word that is shown for a name.
fn text_of(name: SectionName) -> &'static str
    ensures text { result.now ≡ name_text name }
    ensures short { length result.now ≤ 16 }
{
    name.text()
}

/// Puts the head of a list.
#[tactic(auto, unfolding(crate::specs::Lines::list_line))]
pub fn put_list(page: &mut Page, name: SectionName, count: u64, width: u32)
    requires { length page.old.bytes + 256 ≤ 4096 }
    ensures { page.new.bytes ≡ page.old.bytes ++ lines.list_line (name_text name) count width }
{
    page.push_str("list ");
    page.push_str(text_of(name));
    put_number(page, " count ", count);
    put_number(page, " width ", u64::from(width));
    page.push_str("\n");
}

/// Puts the head of an Elias-Fano list.
#[tactic(auto, unfolding(crate::specs::Lines::sums_line))]
pub fn put_sums(page: &mut Page, name: SectionName, count: u64, below: u64)
    requires { length page.old.bytes + 256 ≤ 4096 }
    ensures { page.new.bytes ≡ page.old.bytes ++ lines.sums_line (name_text name) count below }
{
    page.push_str("sums ");
    page.push_str(text_of(name));
    put_number(page, " count ", count);
    put_number(page, " below ", below);
    page.push_str("\n");
}

/// Puts the head of corrections: the name and their number.
#[tactic(auto, unfolding(crate::specs::Lines::number_line))]
pub fn put_corrections(page: &mut Page, name: SectionName, count: u64)
    requires { length page.old.bytes + 256 ≤ 4096 }
    ensures { page.new.bytes ≡ page.old.bytes ++ lines.number_line (name_text name) count }
{
    page.push_str(text_of(name));
    put_number(page, " ", count);
    page.push_str("\n");
}

/// Puts the head of a function.
pub fn put_function(page: &mut Page, name: SectionName, width: u32, pairs: u64, sizes: Sizes)
    requires { length page.old.bytes + 256 ≤ 4096 }
    ensures { page.new.bytes ≡ page.old.bytes
        ++ lines.function_line (name_text name) width pairs sizes.chunks sizes.cells }
{
    page.push_str("function ");
    page.push_str(text_of(name));
    put_number(page, " width ", u64::from(width));
    put_number(page, " pairs ", pairs);
    put_number(page, " chunks ", sizes.chunks);
    put_number(page, " cells ", sizes.cells);
    page.push_str("\n");
}
