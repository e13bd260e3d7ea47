//! The task of `trial`.

ghost use Rattle.std.specs.Prelude.{◌≡◌, length, option_map};
ghost use Rattle.sx_spec.specs.Command.{number_within};
ghost use Rattle.sx_words.specs.Tasks.{task_of};
ghost use Rattle.sx_words.specs.Rules.{trial_words};

use crate::Task;
use crate::arguments::Arguments;
use crate::names::kind_named;
use sx_numbers::number_of;
use sx_spec::Rule;

/// How many keys a trial has at most.
const MOST_KEYS: u64 = 1_000_000;

/// The number of keys that the text is, if it is one.
fn keys_in(text: &str) -> Option<u32>
    ensures { result ≡ number_within 0 1000000 text.now }
{
    match number_of(text.as_bytes()) {
        Some(number) if number <= MOST_KEYS => Some(number as u32),
        _ => None,
    }
}

/// The task of `trial` with these words.
pub fn task_of_trial(arguments: &Arguments<'_>) -> Task
    requires { length arguments.now.positional ≡ 2 }
    ensures { task_of result ≡ trial_words arguments.now }
{
    let Some(kind) = kind_named(arguments.positional(0)) else {
        return Task::Usage(Rule::UnknownKind);
    };
    match keys_in(arguments.positional(1)) {
        Some(keys) => Task::Trial { kind, keys },
        None => Task::Usage(Rule::BadNumber),
    }
}
