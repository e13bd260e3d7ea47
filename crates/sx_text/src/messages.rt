//! The texts of one line on standard output and on standard error.
ghost use Rattle.std.specs.Prelude.{◌≡◌, ◌++◌, ◌∷◌, [], IfOk, OnOk, codes, decimal};
ghost use Rattle.sx_spec.specs.Keys.{KeyFault};
ghost use Rattle.sx_spec.specs.Kinds.{kind_word};
ghost use Rattle.sx_spec.specs.Messages.{message, usage_text, key_text, values_text, check_text, no_dump_text};
ghost use Rattle.sx_text.specs.Reasons.{fault_of, told_of};
ghost use Rattle.sx_text.specs.Reasons.{counts_text, values_fault_of};

use itoa::Buffer;
use std::alloc::{AllocError, Global};
use sx_kinds::kinds::kind_word;
use sx_kinds::options::option_word;
use sx_spec::{Kind, OptionName, Rule};

/// Why a line is no key.
#[derive(Clone, Copy, Debug, PartialEq, Eq)]
pub enum KeyReason {
    TooLong,
    ZeroByte,
    Doubled,
    Unordered,
    TooManyKeys,
    TooManyBytes,
}

/// What is wrong with a values file.
#[derive(Clone, Copy, Debug, PartialEq, Eq)]
pub enum ValuesFault {
    /// No file has the name.
    NoSuchFile,
    /// The line of this number, counted from 1, is no number of 64 bits.
    NotANumber { line: u64 },
    /// The line of this number is one more than there are keys.
    MoreThanKeys { line: u64 },
    /// There are only so many values.
    FewerThanKeys { values: u64 },
}

/// Puts a number at the end, in decimal.
pub(crate) fn push_number(text: &mut Vec<u8>, number: u64) -> Result<(), AllocError>
    ensures { OnOk result (text.new.items ≡ text.old.items ++ decimal number) }
{
    let mut buffer = Buffer::new();
    text.extend_from_slice(buffer.format(number).as_bytes())
}

/// `sux: ` with a number in between and a line feed behind.
fn numbered_text(alloc: Global, place: &str, number: u64, told: &str) -> Result<Vec<u8>, AllocError>
    ensures { IfOk result
        (λ text. text.items ≡ message (place.now ∷ decimal number ∷ told.now ∷ [])) }
{
    let mut text = Vec::from_slice(alloc, b"sux: ")?;
    text.extend_from_slice(place.as_bytes())?;
    push_number(&mut text, number)?;
    text.extend_from_slice(told.as_bytes())?;
    text.extend_from_slice(b"\n")?;
    Ok(text)
}

// ---- usage

/// What is told of words, in three pieces.
fn usage_pieces(
    alloc: Global,
    first: &str,
    second: &str,
    third: &str,
) -> Result<Vec<u8>, AllocError>
    ensures { IfOk result
        (λ text. text.items ≡ codes "sux: usage: " ++ (first.now ++ (second.now ++ (third.now ++ 10 ∷ [])))) }
{
    let mut text = Vec::from_slice(alloc, b"sux: usage: ")?;
    text.extend_from_slice(first.as_bytes())?;
    text.extend_from_slice(second.as_bytes())?;
    text.extend_from_slice(third.as_bytes())?;
    text.extend_from_slice(b"\n")?;
    Ok(text)
}

/// What is told of words that break a rule.
pub fn usage_message(alloc: Global, rule: Rule) -> Result<Vec<u8>, AllocError>
    ensures { IfOk result (λ text. text.items ≡ usage_text rule) }
{
    match rule {
        Rule::NoCommand => usage_pieces(alloc, "no command", "", ""),
        Rule::UnknownCommand => usage_pieces(alloc, "unknown command", "", ""),
        Rule::BadWords => usage_pieces(alloc, "bad words", "", ""),
        Rule::UnknownKind => usage_pieces(alloc, "unknown kind", "", ""),
        Rule::BadNumber => usage_pieces(alloc, "bad number", "", ""),
        Rule::BadValue(name) => usage_pieces(alloc, "bad value for ", option_word(name), ""),
        Rule::DoesNotGo { name, kind } => usage_pieces(
            alloc,
            option_word(name),
            " does not go with ",
            kind_word(kind),
        ),
        Rule::SignedAndValues => {
            usage_pieces(alloc, "--signed", " does not go with ", "--values")
        }
    }
}

// ---- keys and values

/// What is told behind the line's number.
fn reason_text(reason: KeyReason) -> &'static str
    ensures { result.now ≡ told_of reason }
{
    match reason {
        KeyReason::TooLong => ": longer than 8191 bytes",
        KeyReason::ZeroByte => ": holds a zero byte",
        KeyReason::Doubled => ": equal to the line before",
        KeyReason::Unordered => ": below the line before",
        KeyReason::TooManyKeys => ": more than 4194304 keys",
        KeyReason::TooManyBytes => ": more than 268435456 bytes of keys",
    }
}

/// What is told of a line that is no key.
pub fn key_message(alloc: Global, line: u64, reason: KeyReason) -> Result<Vec<u8>, AllocError>
    ensures { IfOk result (λ text. text.items ≡ key_text (fault_of line reason)) }
{
    numbered_text(alloc, "line ", line, reason_text(reason))
}

/// Puts the numbers of values and of keys at the end.
fn push_counts(text: &mut Vec<u8>, values: u64, keys: u32) -> Result<(), AllocError>
    ensures { OnOk result (text.new.items ≡ text.old.items ++ counts_text values keys) }
{
    text.extend_from_slice(b"values: ")?;
    push_number(text, values)?;
    text.extend_from_slice(b" values for ")?;
    push_number(text, u64::from(keys))?;
    text.extend_from_slice(b" keys\n")
}

/// What is told of too few values for so many keys.
fn few_values_text(alloc: Global, values: u64, keys: u32) -> Result<Vec<u8>, AllocError>
    ensures { IfOk result (λ text. text.items ≡ codes "sux: " ++ counts_text values keys) }
{
    let mut text = Vec::from_slice(alloc, b"sux: ")?;
    push_counts(&mut text, values, keys)?;
    Ok(text)
}

/// What is told of a values file for so many keys.
pub fn values_message(alloc: Global, keys: u32, fault: ValuesFault) -> Result<Vec<u8>, AllocError>
    ensures { IfOk result (λ text. text.items ≡ values_text keys (values_fault_of fault)) }
{
    match fault {
        ValuesFault::NoSuchFile => Vec::from_slice(alloc, b"sux: values: no such file\n"),
        ValuesFault::NotANumber { line } => numbered_text(
            alloc,
            "values line ",
            line,
            ": not a number",
        ),
        ValuesFault::MoreThanKeys { line } => {
            numbered_text(alloc, "values line ", line, ": more values than keys")
        }
        ValuesFault::FewerThanKeys { values } => few_values_text(alloc, values, keys),
    }
}

// ---- dumps

/// What is told where no file has the name.
pub fn no_dump_message() -> [u8; 24]
    ensures { result ≡ no_dump_text }
{
    *b"sux: dump: no such file\n"
}

/// What is told of a file that fails a check.
pub fn check_message(alloc: Global, check: u8) -> Result<Vec<u8>, AllocError>
    ensures { IfOk result (λ text. text.items ≡ check_text check) }
{
    numbered_text(alloc, "dump: check ", u64::from(check), "")
}

/// The line on what was built.
pub fn built_text(alloc: Global, keys: u64, seed: u64, words: u64) -> Result<Vec<u8>, AllocError>
    ensures { IfOk result (λ text. text.items
        ≡ codes "keys " ++ decimal keys ++ codes " seed " ++ decimal seed ++ codes " words " ++ decimal words ++ 10 ∷ []) }
{
    let mut text = Vec::from_slice(alloc, b"keys ")?;
    push_number(&mut text, keys)?;
    text.extend_from_slice(b" seed ")?;
    push_number(&mut text, seed)?;
    text.extend_from_slice(b" words ")?;
    push_number(&mut text, words)?;
    text.extend_from_slice(b"\n")?;
    Ok(text)
}

/// The line on a dump that was opened.
pub fn opened_text(alloc: Global, kind: Kind, keys: u64, words: u64) -> Result<Vec<u8>, AllocError>
    ensures { IfOk result (λ text. text.items
        ≡ kind_word kind ++ codes " keys " ++ decimal keys ++ codes " words " ++ decimal words ++ 10 ∷ []) }
{
    let mut text = Vec::from_slice(alloc, kind_word(kind).as_bytes())?;
    text.extend_from_slice(b" keys ")?;
    push_number(&mut text, keys)?;
    text.extend_from_slice(b" words ")?;
    push_number(&mut text, words)?;
    text.extend_from_slice(b"\n")?;
    Ok(text)
}

/// Puts a number of up to 128 bits at the end, in decimal.
fn push_wide(text: &mut Vec<u8>, number: u128) -> Result<(), AllocError>
    ensures { OnOk result (text.new.items ≡ text.old.items ++ decimal number) }
{
    let mut buffer = Buffer::new();
    text.extend_from_slice(buffer.format(number).as_bytes())
}

/// The line on a trial of so many keys: how many of them were answered, the sum of these replies, and
/// the sum of the replies to strangers.
pub fn trial_text(
    alloc: Global,
    kind: Kind,
    keys: u64,
    answers: u64,
    sum: u128,
    strangers: u128,
) -> Result<Vec<u8>, AllocError>
    ensures { IfOk result (λ text. text.items
        ≡ codes "trial " ++ kind_word kind ++ codes " keys " ++ decimal keys ++ codes " answers " ++ decimal answers ++ codes " sum " ++ decimal sum ++ codes " strangers " ++ decimal strangers ++ 10 ∷ []) }
{
    let mut text = Vec::from_slice(alloc, b"trial ")?;
    text.extend_from_slice(kind_word(kind).as_bytes())?;
    text.extend_from_slice(b" keys ")?;
    push_number(&mut text, keys)?;
    text.extend_from_slice(b" answers ")?;
    push_number(&mut text, answers)?;
    text.extend_from_slice(b" sum ")?;
    push_wide(&mut text, sum)?;
    text.extend_from_slice(b" strangers ")?;
    push_wide(&mut text, strangers)?;
    text.extend_from_slice(b"\n")?;
    Ok(text)
}
