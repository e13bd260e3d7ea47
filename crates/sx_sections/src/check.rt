//! The checks of a section of any kind, by its rule.

ghost use Rattle.std.specs.Prelude.{◌≤◌, length};
ghost use Rattle.sx_spec.specs.Layout.{function_of, list_of, sums_of};
ghost use Rattle.sx_sections.specs.Places.{IsChecked};
ghost use Rattle.sx_sections.specs.Rules.{IsBoundedRule, IsCount, IsWithin, rule_as};

use crate::corrections::check_corrections;
use crate::number::Check;
use crate::place::Place;
use crate::rule::{Bounds, SectionRule};
use sx_ef::section::sums_check;
use sx_fields::section::list_check;
use sx_static::function_check;

/// The function within bounds that begins at word `at`, or the first check that fails.
fn check_function(words: &[u64], at: usize, bounds: Bounds) -> Result<Place, Check>
    requires inside { at ≤ length words.now }
    requires bounded { IsWithin bounds }
    ensures { IsChecked (function_of bounds.least bounds.most bounds.low bounds.high)
        words.now at result }
{
    let Bounds {
        least,
        most,
        low,
        high,
    } = bounds;
    match function_check(words, at, least, most, low, high) {
        Ok(section) => Ok(Place::Function(section)),
        Err(check) => Err(Check::of_number(check)),
    }
}

/// The packed list within bounds that begins at word `at`, or the first check that fails.
fn check_list(words: &[u64], at: usize, bounds: Bounds) -> Result<Place, Check>
    requires inside { at ≤ length words.now }
    requires bounded { IsWithin bounds }
    ensures { IsChecked (list_of bounds.least bounds.most bounds.low bounds.high)
        words.now at result }
{
    let Bounds {
        least,
        most,
        low,
        high,
    } = bounds;
    match list_check(words, at, least, most, low, high) {
        Ok(section) => Ok(Place::List(section)),
        Err(check) => Err(Check::of_number(check)),
    }
}

/// The Elias-Fano list of so many numbers that begins at word `at`, or the first check that fails.
fn check_sums(words: &[u64], at: usize, count: u64) -> Result<Place, Check>
    requires inside { at ≤ length words.now }
    requires bounded { IsCount count }
    ensures { IsChecked (sums_of count) words.now at result }
{
    match sums_check(words, at, count) {
        Ok(sums) => Ok(Place::Sums(sums)),
        Err(check) => Err(Check::of_number(check)),
    }
}

/// Where the section by this rule that begins at word `at` stands.
///
/// # Errors
/// The first of its checks that fails.
pub fn check_section(words: &[u64], at: usize, rule: SectionRule) -> Result<Place, Check>
    requires inside { at ≤ length words.now }
    requires bounded { IsBoundedRule rule }
    ensures { IsChecked (rule_as rule) words.now at result }
{
    match rule {
        SectionRule::Function(bounds) => check_function(words, at, bounds),
        SectionRule::List(bounds) => check_list(words, at, bounds),
        SectionRule::Sums(count) => check_sums(words, at, count),
        SectionRule::Corrections(most) => check_corrections(words, at, most),
    }
}
