//! What the words of a command line name: commands, options, kinds and methods.

ghost use Rattle.std.specs.Prelude.{◌≡◌, find};
ghost use Rattle.std.specs.Str.{bytes_eq};
ghost use Rattle.sx_spec.specs.Command as usage;
ghost use Rattle.sx_words.specs.Commands.{command_word, commands};

use sx_kinds::kinds::{kind_word, method_word};
use sx_spec::{Kind, Method, OptionName};

/// The commands.
#[derive(Clone, Copy, PartialEq, Eq, Debug)]
pub enum Command {
    Build,
    Query,
    Open,
    Dump,
    Trial,
}

/// All commands.
const COMMANDS: [Command; 5] = [
    Command::Build,
    Command::Query,
    Command::Open,
    Command::Dump,
    Command::Trial,
];

/// All options of `build`, in the order in which they are judged.
pub const OPTIONS: [OptionName; 7] = [
    OptionName::Seeds,
    OptionName::Method,
    OptionName::LogBucket,
    OptionName::SigBits,
    OptionName::HandleBits,
    OptionName::Signed,
    OptionName::Values,
];

/// All kinds.
const KINDS: [Kind; 6] = [
    Kind::Func,
    Kind::Lcp,
    Kind::Lcp2,
    Kind::Hollow,
    Kind::HollowDist,
    Kind::Zfast,
];

/// All methods.
const METHODS: [Method; 2] = [Method::Mwhc, Method::Gov3];

/// The word for a command.
pub fn command_word(command: Command) -> &'static str
    ensures { result.now ≡ command_word command }
{
    match command {
        Command::Build => "build",
        Command::Query => "query",
        Command::Open => "open",
        Command::Dump => "dump",
        Command::Trial => "trial",
    }
}

/// The command with this word.
pub fn command_named(word: &str) -> Option<Command>
    ensures { result ≡ find (λ command. bytes_eq (command_word command) word.now) commands }
{
    COMMANDS
        .iter()
        .copied()
        .find(|command| command_word(*command) == word)
}

/// The kind with this word.
pub fn kind_named(word: &str) -> Option<Kind>
    ensures { result ≡ usage.kind_named word.now }
{
    KINDS.iter().copied().find(|kind| kind_word(*kind) == word)
}

/// The method with this word.
pub fn method_named(word: &str) -> Option<Method>
    ensures { result ≡ usage.method_named word.now }
{
    METHODS
        .iter()
        .copied()
        .find(|method| method_word(*method) == word)
}
