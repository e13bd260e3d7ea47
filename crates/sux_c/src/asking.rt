//! What a dump is asked by its handle.

ghost use Rattle.std.specs.Prelude.{◌≡◌, ◌≢◌, ◌⊎◌, ◌↔◌, IsTrue, false, length, map, true};
ghost use Rattle.sx_spec.specs.Layout.{header_of, kind_code as kind_code_of};
ghost use Rattle.sx_dump.specs.Opening.{dump_in};
ghost use Rattle.sux_c.specs.Answers.{answer_for, number_of, number_or, status_of};

use crate::answer::{ask, ask_all};
use crate::handle::SuxDump;
use crate::header::kind_code;
use crate::status::{BAD_COUNT, DONE, NO_DUMP, NO_KIND};

/// The reply of an open dump to a line, at `value`.
#[unsafe(no_mangle)]
pub extern "C" fn sux_reply(dump: &SuxDump, line: &[u8], value: &mut u64) -> u8
    ensures status { dump.now.opened ≡ true
        → result ≡ status_of (answer_for (dump_in dump.now.words.now) line.now) }
    ensures value { dump.now.opened ≡ true
        → value.new ≡ number_or (answer_for (dump_in dump.now.words.now) line.now) value.old }
    ensures not_open { dump.now.opened ≡ false → result ≡ NO_DUMP }
    ensures kept { dump.now.opened ≡ false → value.new ≡ value.old }
{
    match dump.dump() {
        Some(found) => {
            let answer = ask(&found, line);
            *value = answer.number_or(*value);
            answer.status()
        }
        None => NO_DUMP,
    }
}

/// The replies of an open dump to lines, in order: how each is told, and its number, 0 where there
/// is none.
#[unsafe(no_mangle)]
pub extern "C" fn sux_replies(
    dump: &SuxDump,
    lines: &[&[u8]],
    values: &mut [u64],
    statuses: &mut [u8],
) -> u8
    ensures not_open { (result ≡ NO_DUMP) ↔ (dump.now.opened ≡ false) }
    ensures only { (result ≡ DONE) ⊎ (result ≡ BAD_COUNT) ⊎ (result ≡ NO_DUMP) }
    ensures many { result ≡ DONE → length values.old ≡ length lines.now }
    ensures marks { result ≡ DONE → length statuses.old ≡ length lines.now }
    ensures bad_count { result ≡ BAD_COUNT
        → (length values.old ≢ length lines.now) ⊎ (length statuses.old ≢ length lines.now) }
    ensures statuses { result ≡ DONE → statuses.new
        ≡ map (λ l. status_of (answer_for (dump_in dump.now.words.now) l.now)) lines.now }
    ensures values { result ≡ DONE → values.new
        ≡ map (λ l. number_of (answer_for (dump_in dump.now.words.now) l.now)) lines.now }
    ensures values_kept { result ≢ DONE → values.new ≡ values.old }
    ensures statuses_kept { result ≢ DONE → statuses.new ≡ statuses.old }
{
    match dump.dump() {
        Some(found) => {
            if values.len() != lines.len() || statuses.len() != lines.len() {
                return BAD_COUNT;
            }
            ask_all(&found, lines, values, statuses);
            DONE
        }
        None => NO_DUMP,
    }
}

/// The code of an open dump's kind, and 255 where the handle isn't open.
#[unsafe(no_mangle)]
pub extern "C" fn sux_kind(dump: &SuxDump) -> u8
    ensures kind { dump.now.opened ≡ true
        → result ≡ kind_code_of (dump_in dump.now.words.now).header.plan.kind }
    ensures not_open { dump.now.opened ≡ false → result ≡ NO_KIND }
{
    match dump.dump() {
        Some(found) => kind_code(found.kind()),
        None => NO_KIND,
    }
}

/// How many keys an open dump was built from, and 0 where the handle isn't open.
#[unsafe(no_mangle)]
pub extern "C" fn sux_keys(dump: &SuxDump) -> u64
    ensures keys { dump.now.opened ≡ true
        → result ≡ (dump_in dump.now.words.now).header.keys }
    ensures not_open { dump.now.opened ≡ false → result ≡ 0 }
{
    match dump.dump() {
        Some(found) => found.keys(),
        None => 0,
    }
}

/// How many words an open dump has, and 0 where the handle isn't open.
#[unsafe(no_mangle)]
pub extern "C" fn sux_words(dump: &SuxDump) -> u64
    ensures words { dump.now.opened ≡ true → result ≡ length dump.now.words.now }
    ensures not_open { dump.now.opened ≡ false → result ≡ 0 }
{
    if !dump.opened {
        return 0;
    }
    dump.words.len() as u64
}
