//! Sections of signatures, which rise: a word with their number, and three words for each.

ghost use Rattle.std.specs.Prelude.{◌≡◌, ◌+◌, ◌*◌, ◌<◌, ◌≤◌, ◌^◌, drop, length};
ghost use Rattle.std.specs.Ordering.{is_lt};
ghost use Rattle.sx_spec.specs.Layout.{corrections_of};
ghost use Rattle.sx_spec.specs.Signature.{signature_cmp};
ghost use Rattle.sx_sig.specs.SignatureWords.{rises, signature_at as signature_of, signatures_at};
ghost use Rattle.sx_sections.specs.Places.{IsChecked};

use crate::number::Check;
use crate::place::{CorrectionsPlace, Place};
use sx_spec::Signature;

/// Whether a signature is below another.
fn is_below(first: &Signature, second: &Signature) -> bool
    ensures { result ≡ is_lt (signature_cmp first.now second.now) }
{
    [first.w0, first.w1, first.w2] < [second.w0, second.w1, second.w2]
}

/// Signature `i` of those whose words begin at word `body`.
pub fn signature_at(words: &[u64], body: usize, i: usize) -> Signature
    requires { body + 3 * i + 3 ≤ length words.now }
    ensures { result ≡ signature_of words.now body i }
{
    let at = body + 3 * i;
    Signature {
        w0: words[at],
        w1: words[at + 1],
        w2: words[at + 2],
    }
}

/// Whether each of so many signatures is below the next.
fn are_rising(words: &[u64], body: usize, count: usize) -> bool
    requires { body + 3 * count ≤ length words.now }
    ensures { result ≡ rises (signatures_at words.now body count) }
{
    for i in 1..count {
        let before = signature_at(words, body, i - 1);
        if !is_below(&before, &signature_at(words, body, i)) {
            return false;
        }
    }
    true
}

/// The section of at most so many signatures that begins at word `at`.
///
/// # Errors
/// The first check that fails, in this order: the word before the signatures is there, their number
/// is in its range, their words are there, and each is below the next.
pub fn check_corrections(words: &[u64], at: usize, most: u64) -> Result<Place, Check>
    requires inside { at ≤ length words.now }
    requires few { most < 2 ^ 32 }
    ensures { IsChecked (corrections_of most) words.now at result }
{
    if words.len() == at {
        return Err(Check::Room);
    }
    let count = words[at];
    if count > most {
        return Err(Check::Count);
    }
    let body = at + 1;
    if ((words.len() - body) as u64) < 3 * count {
        return Err(Check::Room);
    }
    if !are_rising(words, body, count as usize) {
        return Err(Check::Order);
    }
    Ok(Place::Corrections(CorrectionsPlace {
        count,
        body,
        after: body + 3 * count as usize,
    }))
}
