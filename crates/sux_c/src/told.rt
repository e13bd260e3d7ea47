//! What a build tells, as numbers.

ghost use Rattle.std.specs.Prelude.{◌≡◌, ◌+◌, ◌<◌, [], ◌∷◌, ◌++◌};
ghost use Rattle.sx_parts.specs.Assembling.{failure_of};
ghost use Rattle.sux_c.specs.Told.{failures_in, failure_told};

use sx_parts::{PartCause, PartFault};

/// How many seeds are tried at most.
pub(crate) const MOST_SEEDS: usize = 16;

/// Why a seed doesn't work: the first part that can't be built, counted from 0, and what keeps it
/// from that.
#[repr(C)]
#[derive(Clone, Copy)]
pub struct SuxFailure {
    pub part: u32,
    /// 1: two strings of the part have one signature. 2: no try works for a chunk.
    pub cause: u32,
    /// The number of the first of the two strings, or of the chunk.
    pub first: u32,
    /// The number of the second of the two strings, else 0.
    pub second: u32,
}

impl SuxFailure {
    /// The numbers of a failure.
    pub fn of(fault: &PartFault) -> SuxFailure
        ensures { result ≡ failure_told (failure_of fault.now) }
    {
        match &fault.cause {
            PartCause::Twins { first, second } => SuxFailure {
                part: fault.part,
                cause: 1,
                first: *first,
                second: *second,
            },
            PartCause::Stuck { chunk, .. } => SuxFailure {
                part: fault.part,
                cause: 2,
                first: *chunk,
                second: 0,
            },
        }
    }
}

/// The failures of seeds in their order, of which there are `count`.
#[repr(C)]
#[derive(Clone, Copy)]
pub struct SuxFailures {
    pub count: usize,
    pub list: [SuxFailure; 16],
}

impl SuxFailures {
    /// No failures.
    pub fn none() -> SuxFailures
        ensures none { failures_in result ≡ [] }
        ensures count { result.count ≡ 0 }
    {
        SuxFailures {
            count: 0,
            list: [SuxFailure {
                part: 0,
                cause: 0,
                first: 0,
                second: 0,
            }; MOST_SEEDS],
        }
    }

    /// Puts a failure behind the others, where there is room.
    pub fn push(&mut self, failure: SuxFailure)
        requires { self.old.count < 16 }
        ensures failures { failures_in self.new ≡ failures_in self.old ++ failure ∷ [] }
        ensures count { self.new.count ≡ self.old.count + 1 }
    {
        self.list[self.count] = failure;
        self.count += 1;
    }
}

/// What a build tells.
#[repr(C)]
#[derive(Clone, Copy)]
pub struct SuxTold {
    /// How many words the dump has.
    pub words: u64,
    /// The seed that it is built with.
    pub seed: u64,
    /// The key that is refused, counted from 0.
    pub number: u64,
    /// The rule that it breaks.
    pub rule: u32,
    /// The failures of the seeds that don't work.
    pub failures: SuxFailures,
}
