//! What the words of a command line are to do: the task of the program, or the first rule of
//! usage that they break.
#![tactic(auto)]

ghost use Rattle.std.specs.Prelude.{◌≡◌, IfOk};

mod arguments;
mod build;
mod names;
mod options;
mod read;
mod seeds;
#[cfg(test)]
mod tests;
mod trial;

pub use read::read_words;
pub use seeds::Seeds;
use std::alloc::{AllocError, Global};
use std::marker::Model;
pub use sx_spec::{Kind, Method, OptionName, Plan, Rule};

/// A text of its own: the name of a file, or the value of an option.
#[derive(Debug, Drop)]
pub struct Name {
    text: String,
}

impl Model for Name {
    ghost use Rattle.std.specs.Prelude.{List, ℕ, string_bytes};

    ghost Value = { List ℕ };

    ghost view = { λ a. string_bytes a.text };
}

impl Name {
    /// A copy of the text.
    pub fn new(alloc: Global, text: &str) -> Result<Name, AllocError>
        ensures { IfOk result (λ name. name ≡ text.now) }
    {
        Ok(Name {
            text: String::from_str(alloc, text)?,
        })
    }

    /// The text.
    pub fn as_str(&self) -> &str
        ensures { result.now ≡ self.now }
    {
        self.text.as_str()
    }
}

/// What `build` is to do.
#[derive(Debug, Drop)]
pub struct BuildTask {
    pub plan: Plan,
    pub seeds: Seeds,
    /// The file of the values, if one is named.
    pub values: Option<Name>,
    /// The file of the dump.
    pub dump: Name,
}

/// What a run is to do, or the rule of usage that the words break.
#[derive(Debug, Drop)]
pub enum Task {
    Usage(Rule),
    Build(BuildTask),
    /// Answer queries from the dump of this name.
    Query(Name),
    /// Open the dump of this name.
    Open(Name),
    /// Show the dump of this name.
    Dump(Name),
    /// Build and ask a dump of so many made keys.
    Trial { kind: Kind, keys: u32 },
}
