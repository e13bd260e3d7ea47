//! The signatures of keys and of pieces of them.

ghost use Rattle.std.specs.Prelude.{◌≡◌, ◌<◌, ◌≤◌, All, IfOk, length, map};
ghost use Rattle.std.specs.List.{AllByRecursion};
ghost use Rattle.sx_bits.specs.KeyLists.{IsKeyList};
ghost use Rattle.sx_bits.specs.Pieces.{IsPiece};
ghost use Rattle.sx_parts.specs.Assembling.{key_signature};
ghost use Rattle.sx_parts.specs.Ranking.{signature_at};
ghost use Rattle.sx_parts.specs.Sectioning.{piece_signature};

use std::alloc::{AllocError, Global};
use sx_bits::{KeyList, Piece};
use sx_sig::{Signature, sign};

/// The signature of each key.
pub fn sign_keys(
    alloc: Global,
    keys: &KeyList,
    seed: u64,
    sig_bits: u32,
) -> Result<Vec<Signature>, AllocError>
    requires { sig_bits ≤ 192 }
    ensures signed { IfOk result
        (λ sigs. sigs.items ≡ map (key_signature seed sig_bits) keys.now.lines) }
    ensures keys { IsKeyList keys.now }
{
    let count = keys.len();
    let mut sigs = Vec::with_capacity(alloc, count as usize)?;
    for i in 0..count {
        sigs.push(sign(seed, &keys.view(i), None, sig_bits))?;
    }
    Ok(sigs)
}

/// The signature of each piece.
pub fn sign_pieces(
    alloc: Global,
    keys: &KeyList,
    pieces: &[Piece],
    seed: u64,
    sig_bits: u32,
) -> Result<Vec<Signature>, AllocError>
    requires few { sig_bits ≤ 192 }
    requires pieces { AllByRecursion (IsPiece keys.now.lines) pieces.now }
    ensures { IfOk result (λ sigs. sigs.items
        ≡ map (piece_signature seed sig_bits keys.now.lines) pieces.now) }
{
    let mut sigs = Vec::with_capacity(alloc, pieces.len())?;
    for piece in pieces {
        sigs.push(sign(seed, &keys.piece(piece), piece.tag, sig_bits))?;
    }
    Ok(sigs)
}

/// The signatures at these places.
pub fn signatures_at(
    alloc: Global,
    sigs: &[Signature],
    places: &[u32],
) -> Result<Vec<Signature>, AllocError>
    requires { All (λ i. i < length sigs.now) places.now }
    ensures { IfOk result (λ chosen. chosen.items ≡ map (signature_at sigs.now) places.now) }
{
    let mut chosen = Vec::with_capacity(alloc, places.len())?;
    for place in places {
        chosen.push(sigs[*place as usize])?;
    }
    Ok(chosen)
}
