//! The keys of a build.

ghost use Rattle.std.specs.Prelude.{◌≡◌, ◌++◌, ◌∷◌, [], IfErr, IfOk, MatchResult, None, OnOk};
ghost use Rattle.sx_spec.specs.Keys.{AreKeys, refusal, standard_limits};
ghost use Rattle.sux_c.specs.KeyFaults.{IsKeyStop, StopsAt, lines_of};

use std::alloc::Global;
use sx_bits::{KeyFault, KeyList, Limits};

/// How many bytes a key has at most.
const MAX_KEY: usize = 8191;

/// Why there is no list of the keys.
#[derive(Clone, Copy, Drop)]
pub(crate) enum KeyStop {
    /// The key of this number, counted from 0, breaks this rule.
    Refused { number: u64, rule: u32 },
    /// Memory is wanting.
    Memory,
}

/// Puts a key behind the others, or says why it is none.
fn push_key(list: &mut KeyList, key: &[u8]) -> Result<(), KeyStop>
    requires { list.old.limits ≡ standard_limits }
    ensures put { MatchResult result
        (λ _. list.new ≡ record list.old { lines = list.old.lines ++ key.now ∷ [] })
        (StopsAt list.old.lines key.now) }
    ensures none { OnOk result (refusal standard_limits list.old.lines key.now ≡ None) }
{
    let number = u64::from(list.len());
    if key.len() > MAX_KEY {
        return Err(KeyStop::Refused { number, rule: 1 });
    }
    let rule = match list.push(key) {
        Ok(()) => return Ok(()),
        Err(KeyFault::ZeroByte) => 2,
        Err(KeyFault::Doubled) => 3,
        Err(KeyFault::Unordered) => 4,
        Err(KeyFault::TooManyKeys) => 5,
        Err(KeyFault::TooManyBytes) => 6,
        Err(KeyFault::Memory) => return Err(KeyStop::Memory),
    };
    Err(KeyStop::Refused { number, rule })
}

/// The keys as a list, or the first that breaks a rule.
///
/// # Errors
/// Which key breaks which rule, or want of memory.
pub(crate) fn list_of(alloc: Global, keys: &[&[u8]]) -> Result<KeyList, KeyStop>
    ensures lines { IfOk result (λ list. list.lines ≡ lines_of keys.now) }
    ensures valid { IfOk result (λ _. AreKeys standard_limits (lines_of keys.now)) }
    ensures stop { IfErr result (IsKeyStop (lines_of keys.now)) }
{
    let mut list = KeyList::new(alloc, Limits::standard());
    'keys: for key in keys {
        push_key(&mut list, key)?;
    }
    Ok(list)
}
