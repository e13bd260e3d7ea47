//! The functions of parts, of which a dump has one section each.

ghost use Rattle.std.specs.Prelude.{◌≡◌, ◌<◌, ◌≤◌, ◌^◌, All, MatchResult, length};
ghost use Rattle.sx_spec.specs.Parts.{least_width as least_width_of};
ghost use Rattle.sx_static.specs.Answer.{IsDone, entries_of};
ghost use Rattle.sx_parts.specs.Assembling.{tries};
ghost use Rattle.sx_parts.specs.Sectioning.{StopsPart};

use crate::numbers::least_width;
use crate::{PartCause, PartFault};
use std::alloc::{AllocError, AllocFailed, Global};
use sx_sig::{Method, Signature};
use sx_static::{Built, FuncBuf, build};

/// Why there are no functions for parts.
#[derive(Drop)]
pub enum Stop {
    /// There is no memory for them.
    Memory,
    /// The seed doesn't work for a part.
    Part(PartFault),
}

impl From<AllocError> for Stop {
    ghost use Rattle.std.specs.Prelude.{◌≡◌};
    ghost use Rattle.sx_parts.specs.declared.parts.Stop.TheVariants.{Memory};

    ghost from_gives = { λ _ e. e ≡ Memory };

    fn from(_: AllocError) -> Stop {
        Stop::Memory
    }
}

impl<T: Drop> From<AllocFailed<T>> for Stop {
    ghost use Rattle.std.specs.Prelude.{◌≡◌};
    ghost use Rattle.sx_parts.specs.declared.parts.Stop.TheVariants.{Memory};

    ghost from_gives = { λ _ e. e ≡ Memory };

    fn from(_: AllocFailed<T>) -> Stop {
        Stop::Memory
    }
}

/// Part number `part` has no function, for this cause.
pub fn failed(part: u32, cause: PartCause) -> Stop
    ensures { result ≡ Stop.Part (record { part = part; cause = cause }) }
{
    Stop::Part(PartFault { part, cause })
}

/// The function of part number `part`, which gives each signature its number of `width` bits, at
/// most 64.
pub fn build_part(
    alloc: Global,
    part: u32,
    sigs: &[Signature],
    numbers: &[u64],
    width: u32,
    method: Method,
) -> Result<FuncBuf, Stop>
    requires numbers { length numbers.now ≡ length sigs.now }
    requires few { length sigs.now ≤ 2 ^ 27 }
    requires fit { All (λ v. v < 2 ^ width) numbers.now }
    requires width { width ≤ 64 }
    ensures { MatchResult result (IsDone method tries width (entries_of sigs.now numbers.now))
        (StopsPart part method (entries_of sigs.now numbers.now)) }
{
    match build(alloc, sigs, numbers, width, method)? {
        Built::Done(function) => Ok(function),
        Built::Twins { first, second } => Err(failed(part, PartCause::Twins { first, second })),
        Built::Stuck { chunk, witnesses } => {
            Err(failed(part, PartCause::Stuck { chunk, witnesses }))
        }
    }
}

/// The function of part number `part`, which gives each signature its number. It is as wide as the
/// greatest of them.
pub fn build_least(
    alloc: Global,
    part: u32,
    sigs: &[Signature],
    numbers: &[u64],
    method: Method,
) -> Result<FuncBuf, Stop>
    requires numbers { length numbers.now ≡ length sigs.now }
    requires few { length sigs.now ≤ 2 ^ 27 }
    ensures built { MatchResult result
        (IsDone method tries (least_width_of numbers.now) (entries_of sigs.now numbers.now))
        (StopsPart part method (entries_of sigs.now numbers.now)) }
    ensures narrow { least_width_of numbers.now ≤ 64 }
{
    build_part(alloc, part, sigs, numbers, least_width(numbers), method)
}
