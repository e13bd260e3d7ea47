//! The words after a command, read as its positional words and options.

ghost use Rattle.std.specs.Prelude.{◌≡◌, ◌<◌, ◌&&◌, false, IfOk, length, map, option_map, string_bytes};
ghost use Rattle.std.specs.List.{list_all};
ghost use Rattle.clap.specs.Words.{app_of, rule_of};
ghost use Rattle.sx_spec.specs.Command as usage;
ghost use Rattle.sx_words.specs.Parsers as parsers;
ghost use Rattle.sx_words.specs.Arguments.{may_stand as is_fit, split_for};

use crate::names::{Command, OPTIONS, command_word};
use clap::error::ErrorKind;
use clap::{Arg, ArgAction, ArgMatches, Command as Parser};
use std::alloc::{AllocError, Global};
use std::marker::Model;
use sx_kinds::options::option_id;
use sx_spec::OptionName;

/// The options of a command.
fn options_of(command: Command) -> &'static [OptionName]
    ensures { result.now ≡ parsers.options_of command }
{
    match command {
        Command::Build => &OPTIONS,
        Command::Query | Command::Open | Command::Dump | Command::Trial => &[],
    }
}

/// The names of a command's positional words, in order.
fn positional_ids(command: Command) -> &'static [&'static str]
    ensures { map (λ id. id.now) result.now ≡ parsers.positional_ids command }
{
    match command {
        Command::Build => &["kind", "dump"],
        Command::Query | Command::Open | Command::Dump => &["dump"],
        Command::Trial => &["kind", "keys"],
    }
}

/// An option with one value.
fn option<'a>(alloc: Global, name: OptionName) -> Arg<'a>
    ensures rule { rule_of result ≡ parsers.option_rule name }
    ensures local { result.global ≡ false }
{
    let id: &'a str = option_id(name);
    Arg::new(alloc, id).long(id).action(ArgAction::Set)
}

/// A positional word, which is wanted.
fn positional<'a>(alloc: Global, id: &'a str) -> Arg<'a>
    ensures rule { rule_of result ≡ parsers.positional_rule id.entry.now }
    ensures local { result.global ≡ false }
{
    Arg::new(alloc, id).required(true).action(ArgAction::Set)
}

/// A parser without arguments. No word asks it for help.
fn bare_parser<'a>(alloc: Global, command: Command) -> Parser<'a>
    ensures { app_of result ≡ parsers.bare_parser command }
{
    let name: &'a str = command_word(command);
    Parser::new(alloc, name)
        .no_binary_name(true)
        .disable_help_flag(true)
}

/// The parser with the options of a command.
fn with_options<'a>(
    alloc: Global,
    mut parser: Parser<'a>,
    command: Command,
) -> Result<Parser<'a>, AllocError>
    ensures { IfOk result (λ p. app_of p ≡ parsers.with_rules (app_of parser.entry)
        (map parsers.option_rule (parsers.options_of command))) }
{
    for name in options_of(command) {
        parser = parser.arg(option(alloc, *name))?;
    }
    Ok(parser)
}

/// The parser with the positional words of a command.
fn with_positional<'a>(
    alloc: Global,
    mut parser: Parser<'a>,
    command: Command,
) -> Result<Parser<'a>, AllocError>
    ensures { IfOk result (λ p. app_of p ≡ parsers.with_rules (app_of parser.entry)
        (map parsers.positional_rule (parsers.positional_ids command))) }
{
    for id in positional_ids(command) {
        let id: &'a str = *id;
        parser = parser.arg(positional(alloc, id))?;
    }
    Ok(parser)
}

/// The parser of a command's words.
fn parser_of<'a>(alloc: Global, command: Command) -> Result<Parser<'a>, AllocError>
    ensures { IfOk result (λ p. app_of p ≡ parsers.parser_of command) }
{
    let parser = with_options(alloc, bare_parser(alloc, command), command)?;
    with_positional(alloc, parser, command)
}

fn has_dash(text: &str) -> bool
    ensures { result ≡ usage.has_dash text.now }
{
    let bytes = text.as_bytes();
    !bytes.is_empty() && bytes[0] == b'-'
}

/// Whether an option's word has a value behind its `=` that is none.
fn has_no_value(word: &str) -> bool
    ensures { result
        ≡ (usage.has_equals word.now && usage.is_no_value (usage.after_equals word.now)) }
{
    match word.split_once('=') {
        Some((_, value)) => value.is_empty() || has_dash(value),
        None => false,
    }
}

/// Whether the word may stand behind a command. What a parser would take for the end of the
/// options, for a value or for several short options is refused here.
fn may_stand(word: &str) -> bool
    ensures { result ≡ is_fit word.now }
{
    if has_dash(word) {
        word.len() > 2 && word.as_bytes()[1] == b'-' && !has_no_value(word)
    } else {
        !word.is_empty()
    }
}

/// The positional words and the options of a command.
#[derive(Drop)]
pub struct Arguments<'a> {
    command: Command,
    matches: ArgMatches<'a>,
}

impl<'a> Model for Arguments<'a> {
    ghost use Rattle.std.specs.Prelude.{◌≡◌, true};
    ghost use Rattle.std.specs.List.{list_all};
    ghost use Rattle.clap.specs.Words.{found_of, rows_of};
    ghost use Rattle.sx_spec.specs.Command.{Split};
    ghost use Rattle.sx_words.specs.Parsers.{positional_ids};
    ghost use Rattle.sx_words.specs.Arguments.{split_of, has_value};

    ghost Value = { Split };

    ghost view = { λ a. split_of (positional_ids a.command) (rows_of (found_of a.matches)) };

    ghost invariant = { λ a. list_all has_value (rows_of (found_of a.matches)) ≡ true };
}

impl<'a> Arguments<'a> {
    /// The positional word at a place.
    pub fn positional(&self, i: usize) -> &str
        requires { i < length self.now.positional }
        ensures { result.now ≡ usage.positional self.now i }
    {
        match self.matches.get_str(positional_ids(self.command)[i]) {
            Some(word) => word,
            None => "",
        }
    }

    /// The value of an option, if it is given.
    pub fn setting(&self, name: OptionName) -> Option<&str>
        ensures { option_map (λ x. x.now) result ≡ usage.setting self.now name }
    {
        self.matches.get_str(option_id(name))
    }

    /// Whether the option is given.
    pub fn is_given(&self, name: OptionName) -> bool
        ensures { result ≡ usage.is_given self.now name }
    {
        self.setting(name).is_some()
    }
}

/// Whether each word may stand behind a command.
fn all_may_stand(words: &[String]) -> bool
    ensures { result ≡ list_all is_fit (map (λ word. string_bytes word) words.now) }
{
    words.iter().all(|word| may_stand(word.as_str()))
}

/// The words behind a command, or none where they aren't well formed.
pub fn read_arguments<'a>(
    alloc: Global,
    command: Command,
    words: &'a [String],
) -> Result<Option<Arguments<'a>>, AllocError>
    ensures { IfOk result (λ arguments. arguments
        ≡ split_for command (map (λ word. string_bytes word) words.entry.now)) }
{
    if !all_may_stand(words) {
        return Ok(None);
    }
    match parser_of(alloc, command)?.try_get_matches_from(words) {
        Ok(matches) => Ok(Some(Arguments { command, matches })),
        Err(error) => {
            if error.kind() == ErrorKind::OutOfMemory {
                Err(AllocError)
            } else {
                Ok(None)
            }
        }
    }
}
