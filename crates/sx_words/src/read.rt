//! The task of a command line's words.

ghost use Rattle.std.specs.Prelude.{◌≡◌, IfOk, length};
ghost use Rattle.sx_spec.specs.Command.{command as command_of};
ghost use Rattle.sx_words.specs.Parsers.{positional_ids};
ghost use Rattle.sx_words.specs.Rules.{task_with as task_of_command};
ghost use Rattle.sx_words.specs.Tasks.{task_of};

use crate::arguments::{Arguments, read_arguments};
use crate::build::task_of_build;
use crate::names::{Command, command_named};
use crate::trial::task_of_trial;
use crate::{Name, Task};
use std::alloc::{AllocError, Global};
use sx_edge::words::WordList;
use sx_spec::Rule;

/// What a command with these words is to do.
fn task_with(alloc: Global, command: Command, arguments: &Arguments<'_>) -> Result<Task, AllocError>
    requires { length arguments.now.positional ≡ length (positional_ids command) }
    ensures { IfOk result (λ task. task_of task ≡ task_of_command command arguments.now) }
{
    match command {
        Command::Build => task_of_build(alloc, arguments),
        Command::Query => Ok(Task::Query(Name::new(alloc, arguments.positional(0))?)),
        Command::Open => Ok(Task::Open(Name::new(alloc, arguments.positional(0))?)),
        Command::Dump => Ok(Task::Dump(Name::new(alloc, arguments.positional(0))?)),
        Command::Trial => Ok(task_of_trial(arguments)),
    }
}

/// What the words of a command line are to do.
///
/// Answers `Usage` with the first rule that they break. Want of memory is the only refusal.
pub fn read_words(alloc: Global, words: &WordList) -> Result<Task, AllocError>
    ensures { IfOk result (λ task. task_of task ≡ command_of words.now) }
{
    if words.len() == 0 {
        return Ok(Task::Usage(Rule::NoCommand));
    }
    let Some(command) = command_named(words.get(0)) else {
        return Ok(Task::Usage(Rule::UnknownCommand));
    };
    match read_arguments(alloc, command, words.after(1))? {
        Some(arguments) => task_with(alloc, command, &arguments),
        None => Ok(Task::Usage(Rule::BadWords)),
    }
}
