//! Which values the options of `build` have, and with which kinds they go.

ghost use Rattle.std.specs.Prelude.{◌≡◌, ◌<◌, ◌^◌, is_some};
ghost use Rattle.sx_spec.specs.Command as usage;
ghost use Rattle.sx_spec.specs.declared.OptionName.TheVariants.{Values};

use crate::names::method_named;
use crate::seeds::lists_seeds;
use sx_kinds::kinds::{uses_buckets, uses_handles, uses_method};
use sx_numbers::number_of;
use sx_spec::{Kind, OptionName};

/// Whether the kind has values that may be given.
fn has_values(kind: Kind) -> bool
    ensures { result ≡ usage.goes_with Values kind }
{
    match kind {
        Kind::Func => true,
        Kind::Lcp | Kind::Lcp2 | Kind::Hollow | Kind::HollowDist | Kind::Zfast => false,
    }
}

/// Whether an option goes with a kind.
pub fn goes_with(name: OptionName, kind: Kind) -> bool
    ensures { result ≡ usage.goes_with name kind }
{
    match name {
        OptionName::Seeds | OptionName::SigBits | OptionName::Signed => true,
        OptionName::Method => uses_method(kind),
        OptionName::LogBucket => uses_buckets(kind),
        OptionName::HandleBits => uses_handles(kind),
        OptionName::Values => has_values(kind),
    }
}

/// Whether the text is a number from low to high.
fn is_within(low: u64, high: u64, text: &str) -> bool
    requires { high < 2 ^ 32 }
    ensures { result ≡ is_some (usage.number_within low high text.now) }
{
    match number_of(text.as_bytes()) {
        Some(number) => low <= number && number <= high,
        None => false,
    }
}

/// Whether the text is a value of the option.
pub fn is_value(name: OptionName, text: &str) -> bool
    ensures { result ≡ usage.is_value name text.now }
{
    match name {
        OptionName::Seeds => lists_seeds(text),
        OptionName::Method => method_named(text).is_some(),
        OptionName::LogBucket => is_within(0, 12, text),
        OptionName::SigBits => is_within(0, 192, text),
        OptionName::HandleBits => is_within(0, 64, text),
        OptionName::Signed => is_within(1, 64, text),
        OptionName::Values => true,
    }
}
