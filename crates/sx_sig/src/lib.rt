//! Signatures of bit strings, and where they fall: their chunks, their places in a chunk, and lists of
//! them by chunk.
#![tactic(auto)]

mod chunks;
mod grouping;
mod signing;

pub use chunks::{chunk_bits, chunk_of, places, segment, top_bits};
pub use grouping::{Twins, chunks_of, first_twins, has_twins};
pub use signing::sign;
pub use sx_spec::{Edge as Places, Method, Plan, Signature};
pub use sx_spec_kinds::Kind;

#[cfg(test)]
mod tests;
