//! The checks of a file's size and its header.

ghost use Rattle.std.specs.Prelude.{◌≡◌, ◌≤◌, ◌&&◌, ◌||◌, ◌==◌, IfNone, length, nat_le};
ghost use Rattle.std.specs.Int.{div_ceil};
ghost use Rattle.sx_spec_strings.specs.First.{first_failing};
ghost use Rattle.sx_sections.specs.Checks.{number_in};
ghost use Rattle.sx_sections.specs.Headers.{IsHeader, file_checks};
ghost use Rattle.sx_sections.specs.Offers.{checks_where, is_offered as is_offered_of, plan_checks};

use crate::codes::{kind_code, kind_of};
use crate::header::MAGIC;
use crate::number::Check;
use sx_kinds::kinds::{uses_buckets, uses_handles, uses_method};
use sx_spec::Kind;

/// How many bytes a dump has at least: those of its front.
const MIN_BYTES: u64 = 80;

/// How many bytes a dump has at most.
pub const MAX_BYTES: u64 = 1 << 30;

/// The greatest signed width.
const MAX_SIGNED: u32 = 64;

/// Every kind.
const KINDS: [Kind; 6] = [
    Kind::Func,
    Kind::Lcp,
    Kind::Lcp2,
    Kind::Hollow,
    Kind::HollowDist,
    Kind::Zfast,
];

/// Whether a number is at most so much, and 0 where it doesn't go with the kind.
fn fits(number: u64, most: u64, goes: bool) -> bool
    ensures { result ≡ (nat_le number most && (goes || number == 0)) }
{
    number <= most && (goes || number == 0)
}

/// Whether the kind is one of these.
fn is_offered(kinds: &[Kind], kind: Kind) -> bool
    ensures { result ≡ is_offered_of kinds.now kind }
{
    kinds
        .iter()
        .any(|offered| kind_code(*offered) == kind_code(kind))
}

/// The first check of the words after the kind's that fails.
fn plan_fault(words: &[u64], kind: Kind, signed: u32) -> Option<Check>
    requires { 10 ≤ length words.now }
    ensures { number_in result ≡ first_failing (plan_checks kind signed words.now) }
{
    if !fits(words[3], 1, uses_method(kind)) {
        return Some(Check::Method);
    }
    if words[4] > u64::from(u32::MAX) {
        return Some(Check::Keys);
    }
    if words[6] > 192 {
        return Some(Check::SigBits);
    }
    if !fits(words[7], 12, uses_buckets(kind)) {
        return Some(Check::LogBucket);
    }
    if words[8] > u64::from(MAX_SIGNED) || words[8] > u64::from(signed) {
        return Some(Check::Signed);
    }
    if !fits(words[9], 64, uses_handles(kind)) {
        return Some(Check::HandleBits);
    }
    None
}

/// The first check of a file of so many bytes and its header that fails, by the words of the file,
/// where these kinds are offered, with a signed width of so much at most. The last word is filled
/// up with zero bytes.
pub fn offered_fault(words: &[u64], bytes: u64, kinds: &[Kind], signed: u32) -> Option<Check>
    requires { length words.now ≡ div_ceil bytes 8 }
    ensures first { number_in result
        ≡ first_failing (checks_where kinds.now signed words.now bytes) }
    ensures passed { IfNone result (IsHeader words.now) }
{
    if bytes % 8 != 0 || bytes < MIN_BYTES || bytes > MAX_BYTES {
        return Some(Check::Size);
    }
    if words[0] != MAGIC {
        return Some(Check::Magic);
    }
    if words[1] != words.len() as u64 {
        return Some(Check::Words);
    }
    match kind_of(words[2]) {
        Some(kind) => {
            if !is_offered(kinds, kind) {
                return Some(Check::Kind);
            }
            plan_fault(words, kind, signed)
        }
        None => Some(Check::Kind),
    }
}

/// The same where every kind is offered, with every signed width.
pub fn header_fault(words: &[u64], bytes: u64) -> Option<Check>
    requires { length words.now ≡ div_ceil bytes 8 }
    ensures first { number_in result ≡ first_failing (file_checks words.now bytes) }
    ensures passed { IfNone result (IsHeader words.now) }
{
    offered_fault(words, bytes, &KINDS, MAX_SIGNED)
}
