//! Places that are answered only where the number that is kept there is the signature's.

ghost use Rattle.std.specs.Prelude.{◌≡◌, ◌+◌, ◌<◌, ◌≤◌, ◌==◌, Some, length, slice_index};
ghost use Rattle.sx_spec.specs.Reply.{top_bits as top_bits_of};
ghost use Rattle.sx_spec.specs.StaticFunction.{value_of};
ghost use Rattle.sx_signed.specs.Lookup.{place_of_signature};
ghost use Rattle.sx_static.specs.Viewing.{viewed};

use std::alloc::AllocError;
use std::sync::ledger::Ledger;
use sx_fields::bank::WordBank;
use sx_fields::fields::Fields;
use sx_fields::packed::Packed;
use sx_sig::top_bits;
use sx_spec::Signature;
use sx_static::FuncView;
use sx_steps::Steps;

/// Whether the number that is kept at a place is the signature's, in at most two reads of words.
#[inline(always)]
pub fn agrees<B: WordBank + Copy, L: Ledger>(
    kept: &Packed<B>,
    place: usize,
    sig: &Signature,
    steps: &mut Steps<L>,
) -> bool
    requires place { place < length (⟦<Packed<B> as Fields>⟧.items kept.now) }
    ensures value { result ≡ (slice_index (⟦<Packed<B> as Fields>⟧.items kept.now) place
        == top_bits_of (⟦<Packed<B> as Fields>⟧.bits kept.now) sig.now) }
    ensures counted { steps.old ≤ steps.new }
    ensures cost { steps.new ≤ steps.old + 2 }
{
    kept.read(place, steps) == top_bits(sig, kept.width())
}

/// The place, where it is below the length of the list and the number that is kept there is the
/// signature's, and else none. At most two words are read.
#[inline(always)]
pub fn where_kept<B: WordBank + Copy, L: Ledger>(
    kept: &Packed<B>,
    place: u64,
    sig: &Signature,
    steps: &mut Steps<L>,
) -> Option<u64>
    ensures value { result ≡ place_of_signature (⟦<Packed<B> as Fields>⟧.items kept.now)
        (⟦<Packed<B> as Fields>⟧.bits kept.now) sig.now (Some place) }
    ensures counted { steps.old ≤ steps.new }
    ensures cost { steps.new ≤ steps.old + 2 }
{
    if place < kept.len() as u64 && agrees(kept, place as usize, sig, steps) {
        Some(place)
    } else {
        None
    }
}

/// A function that gives signatures their places, beside the numbers that are kept of them.
#[derive(Copy)]
pub struct SignedView<B: WordBank + Copy> {
    /// Gives a signature its place.
    pub func: FuncView<B>,
    /// What is kept at each place.
    pub kept: Packed<B>,
}

impl<B: WordBank + Copy> Clone for SignedView<B> {
    ghost is_clone = { λ x y. y ≡ x };

    fn clone(&self) -> Result<Self, AllocError> {
        Ok(*self)
    }
}

impl<B: WordBank + Copy> SignedView<B> {
    /// The function with what is kept at its places.
    pub fn new(func: FuncView<B>, kept: Packed<B>) -> SignedView<B>
        ensures func { result.func ≡ func }
        ensures kept { result.kept ≡ kept }
    {
        SignedView { func, kept }
    }

    /// The place that the function answers a signature, or none where nothing is kept there or the
    /// number kept there isn't the signature's. At most ten words are read.
    #[inline(always)]
    pub fn lookup<L: Ledger>(&self, sig: &Signature, steps: &mut Steps<L>) -> Option<u64>
        ensures value { result ≡ place_of_signature (⟦<Packed<B> as Fields>⟧.items self.now.kept)
            (⟦<Packed<B> as Fields>⟧.bits self.now.kept) sig.now
            (Some (value_of (viewed (B.words_of self.now.func.bank) self.now.func.first
            self.now.func.width self.now.func.pairs) sig.now)) }
        ensures counted { steps.old ≤ steps.new }
        ensures cost { steps.new ≤ steps.old + 10 }
    {
        let place = self.func.answer(sig, steps);
        where_kept(&self.kept, place, sig, steps)
    }
}
