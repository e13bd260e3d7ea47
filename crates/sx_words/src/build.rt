//! The task of `build`.

ghost use Rattle.std.specs.Prelude.{◌≡◌, ◌&&◌, IfOk, None, length, find, min, option_and_then, unwrap_or};
ghost use Rattle.sx_spec.specs.Command as usage;
ghost use Rattle.sx_spec.specs.declared.Method.TheVariants.{Mwhc};
ghost use Rattle.sx_spec.specs.declared.OptionName.TheVariants.{Seeds as SeedsName, Method as MethodName, Signed as SignedName, Values as ValuesName};
ghost use Rattle.sx_words.specs.Tasks.{task_of};
ghost use Rattle.sx_words.specs.Rules.{has_bad_value, is_unfit, kind_task, build_words};

use crate::arguments::Arguments;
use crate::names::{OPTIONS, kind_named, method_named};
use crate::options::{goes_with, is_value};
use crate::seeds::{Seeds, seeds_listed};
use crate::{BuildTask, Name, Task};
use std::alloc::{AllocError, Global};
use sx_numbers::number_of;
use sx_spec::{Kind, Method, OptionName, Plan, Rule};

/// Whether the option is given with what is no value of it.
fn has_bad_value(arguments: &Arguments<'_>, name: OptionName) -> bool
    ensures { result ≡ has_bad_value arguments.now name }
{
    match arguments.setting(name) {
        Some(value) => !is_value(name, value),
        None => false,
    }
}

/// Whether the option is given and doesn't go with the kind.
fn is_unfit(arguments: &Arguments<'_>, kind: Kind, name: OptionName) -> bool
    ensures { result ≡ is_unfit arguments.now kind name }
{
    arguments.is_given(name) && !goes_with(name, kind)
}

/// The first option with a bad value.
fn first_bad_value(arguments: &Arguments<'_>) -> Option<OptionName>
    ensures { result ≡ find (has_bad_value arguments.now) usage.option_names }
{
    OPTIONS
        .iter()
        .copied()
        .find(|name| has_bad_value(arguments, *name))
}

/// The first option that doesn't go with the kind.
fn first_unfit(arguments: &Arguments<'_>, kind: Kind) -> Option<OptionName>
    ensures { result ≡ find (is_unfit arguments.now kind) usage.option_names }
{
    OPTIONS
        .iter()
        .copied()
        .find(|name| is_unfit(arguments, kind, *name))
}

/// Whether a signed width is given and values too.
fn excludes_itself(arguments: &Arguments<'_>) -> bool
    ensures { result
        ≡ (usage.is_given arguments.now SignedName && usage.is_given arguments.now ValuesName) }
{
    arguments.is_given(OptionName::Signed) && arguments.is_given(OptionName::Values)
}

/// The first rule that the options of `build` of a kind break.
fn broken_rule(arguments: &Arguments<'_>, kind: Kind) -> Option<Rule>
    ensures { result ≡ usage.options_rule arguments.now kind }
{
    match first_bad_value(arguments) {
        Some(name) => return Some(Rule::BadValue(name)),
        None => {}
    }
    match first_unfit(arguments, kind) {
        Some(name) => return Some(Rule::DoesNotGo { name, kind }),
        None => {}
    }
    if excludes_itself(arguments) {
        Some(Rule::SignedAndValues)
    } else {
        None
    }
}

/// The number of an option that goes with the kind, or its default; 0 where the option doesn't go
/// with the kind. A number that is too large is the greatest of 32 bits.
fn option_number(arguments: &Arguments<'_>, kind: Kind, name: OptionName, default: u32) -> u32
    ensures { result ≡ min (usage.number_of arguments.now kind name default) 4294967295 }
{
    if !goes_with(name, kind) {
        return 0;
    }
    match arguments.setting(name) {
        Some(text) => match number_of(text.as_bytes()) {
            Some(number) => number.min(u64::from(u32::MAX)) as u32,
            None => default,
        },
        None => default,
    }
}

/// The method that is given, or the first one.
fn method_given(arguments: &Arguments<'_>) -> Method
    ensures { result
        ≡ unwrap_or
        (option_and_then usage.method_named (usage.setting arguments.now MethodName)) Mwhc }
{
    match arguments.setting(OptionName::Method) {
        Some(word) => method_named(word).unwrap_or(Method::Mwhc),
        None => Method::Mwhc,
    }
}

/// The seeds that are given, or the standard ones.
fn seeds_given(alloc: Global, arguments: &Arguments<'_>) -> Result<Seeds, AllocError>
    ensures { IfOk result (λ seeds. seeds ≡ unwrap_or
        (option_and_then usage.seeds_in (usage.setting arguments.now SeedsName))
        usage.default_seeds) }
{
    match arguments.setting(OptionName::Seeds) {
        Some(text) => seeds_listed(alloc, text),
        None => Seeds::standard(alloc),
    }
}

/// The file of the values, if one is given.
fn values_given(alloc: Global, arguments: &Arguments<'_>) -> Result<Option<Name>, AllocError>
    ensures { IfOk result (λ values. values ≡ usage.setting arguments.now ValuesName) }
{
    match arguments.setting(OptionName::Values) {
        Some(name) => Ok(Some(Name::new(alloc, name)?)),
        None => Ok(None),
    }
}

/// The plan with these options.
fn plan_of(arguments: &Arguments<'_>, kind: Kind) -> Plan
    requires { usage.options_rule arguments.now kind ≡ None }
    ensures { result ≡ usage.plan_of arguments.now kind }
{
    Plan {
        kind,
        method: method_given(arguments),
        log_bucket: option_number(arguments, kind, OptionName::LogBucket, 5),
        sig_bits: option_number(arguments, kind, OptionName::SigBits, 192),
        handle_bits: option_number(arguments, kind, OptionName::HandleBits, 32),
        signed: option_number(arguments, kind, OptionName::Signed, 0),
    }
}

/// What `build` of a kind is to do.
fn task_for(alloc: Global, arguments: &Arguments<'_>, kind: Kind) -> Result<Task, AllocError>
    requires { length arguments.now.positional ≡ 2 }
    ensures { IfOk result (λ task. task_of task ≡ kind_task arguments.now kind) }
{
    if let Some(rule) = broken_rule(arguments, kind) {
        return Ok(Task::Usage(rule));
    }
    let seeds = seeds_given(alloc, arguments)?;
    let values = values_given(alloc, arguments)?;
    let dump = Name::new(alloc, arguments.positional(1))?;
    let plan = plan_of(arguments, kind);
    Ok(Task::Build(BuildTask {
        plan,
        seeds,
        values,
        dump,
    }))
}

/// The task of `build` with these words.
pub fn task_of_build(alloc: Global, arguments: &Arguments<'_>) -> Result<Task, AllocError>
    requires { length arguments.now.positional ≡ 2 }
    ensures { IfOk result (λ task. task_of task ≡ build_words arguments.now) }
{
    match kind_named(arguments.positional(0)) {
        Some(kind) => task_for(alloc, arguments, kind),
        None => Ok(Task::Usage(Rule::UnknownKind)),
    }
}
