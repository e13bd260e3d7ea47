//! Equal signatures, which no function tells apart. They are looked for where the tries don't show that there are none.

ghost use Rattle.std.specs.Prelude.{◌≡◌, ◌<◌, ◌≤◌, ◌^◌, IfOk, MatchOption, length, map};
ghost use Rattle.sx_spec.specs.StaticFunction.{AllDiffer, AreTwins};
ghost use Rattle.sx_spec.specs.declared.Method.TheVariants.{Gov3};
ghost use Rattle.sx_sig.specs.Grouping.{GathersEqual};
ghost use Rattle.sx_static.specs.Chunks.{IsToldOf};

use crate::{Built, Method, Signature, Witness};
use std::alloc::{AllocError, Global};
use sx_sig::{Twins, first_twins};

/// The first two equal signatures, looked for ahead of the tries where these don't find them: equations of equal signatures
/// with equal values can be solved. Edges of which two are equal are never peeled.
pub(crate) fn early_twins(
    alloc: Global,
    sigs: &[Signature],
    chunks: &[Vec<u32>],
    method: Method,
) -> Result<Option<Twins>, AllocError>
    requires few { length sigs.now < 2 ^ 32 }
    requires gathers { GathersEqual sigs.now (map (λ v. v.items) chunks.now) }
    ensures { IfOk result (λ r. MatchOption r (method ≡ Gov3 → AllDiffer sigs.now)
        (λ twins. AreTwins sigs.now twins.first twins.second)) }
{
    match method {
        Method::Mwhc => Ok(None),
        Method::Gov3 => first_twins(alloc, sigs, chunks),
    }
}

/// These are equal.
pub(crate) fn twins_told(twins: Twins) -> Built
    ensures { result ≡ Built.Twins twins.first twins.second }
{
    Built::Twins {
        first: twins.first,
        second: twins.second,
    }
}

/// Why there is no function, where no try works for a chunk: the first two equal signatures of all chunks, or the chunk.
pub(crate) fn why_none(
    alloc: Global,
    sigs: &[Signature],
    chunks: &[Vec<u32>],
    chunk: u32,
    witnesses: Vec<Witness>,
) -> Result<Built, AllocError>
    requires few { length sigs.now < 2 ^ 32 }
    requires gathers { GathersEqual sigs.now (map (λ v. v.items) chunks.now) }
    ensures { IfOk result (IsToldOf sigs.now chunk witnesses) }
{
    match first_twins(alloc, sigs, chunks)? {
        Some(twins) => Ok(twins_told(twins)),
        None => Ok(Built::Stuck { chunk, witnesses }),
    }
}
