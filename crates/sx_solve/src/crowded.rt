//! The unknown that stands in most equations, found in rounds over falling numbers of equations.

ghost use Rattle.std.specs.Prelude.{◌<◌, ◌^◌, IfSome, length};

/// A round over the unknowns, for those that stand in so many equations.
#[derive(Clone, Copy, Debug)]
pub(crate) struct Round {
    /// No unknown stands in more equations.
    pub(crate) count: u32,
    /// The first unknown that the round has yet to look at.
    pub(crate) next: u32,
    /// The most equations in which an unknown stands that the round has passed.
    pub(crate) below: u32,
}

impl Round {
    /// A round that no unknown is taken in, before the first.
    pub(crate) fn first() -> Round {
        Round {
            count: u32::MAX,
            next: 0,
            below: 0,
        }
    }
}

/// The unknown that stands in most equations, and the least of several. As the counts only fall from call to call, what a
/// round has passed stays below its count, and there are few rounds.
pub(crate) fn most_crowded(round: &mut Round, counts: &[u32]) -> Option<u32>
    requires { length counts.now < 2 ^ 32 }
    ensures { IfSome result (λ unknown. unknown < length counts.now) }
{
    for _ in 0..round.count {
        if let Some(unknown) = next_of_round(round, counts) {
            return Some(unknown);
        }
        if round.below == 0 {
            return None;
        }
        *round = Round {
            count: round.below,
            next: 0,
            below: 0,
        };
    }
    None
}

/// The next unknown of the round.
fn next_of_round(round: &mut Round, counts: &[u32]) -> Option<u32>
    requires { length counts.now < 2 ^ 32 }
    ensures { IfSome result (λ unknown. unknown < length counts.now) }
{
    let count = round.count;
    let mut below = round.below;
    for unknown in round.next..counts.len() as u32 {
        let here = counts[unknown as usize];
        if here >= count {
            round.next = unknown + 1;
            round.below = below;
            return Some(unknown);
        }
        below = below.max(here);
    }
    round.next = counts.len() as u32;
    round.below = below;
    None
}
