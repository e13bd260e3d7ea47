//! The differences of the sums that an Elias-Fano list holds.

ghost use Rattle.std.specs.Prelude.{◌≡◌, ◌+◌, ◌<◌, ◌≤◌, length};
ghost use Rattle.std.specs.List.{slice_index};
ghost use Rattle.sx_spec.specs.Reply.{gaps};
ghost use Rattle.sx_hollow.specs.Views.{sums_read};

use std::sync::ledger::Ledger;
use sx_ef::view::EliasFano;
use sx_fields::bank::WordBank;
use sx_steps::Steps;

/// How far number `i + 1` of a list is above number `i`, or 0. At most 76 words are read.
#[inline(always)]
pub(crate) fn gap<B: WordBank + Copy, D: WordBank, L: Ledger>(
    sums: &EliasFano<B, D>,
    i: usize,
    steps: &mut Steps<L>,
) -> u64
    requires { i + 1 < length (sums_read sums.now) }
    ensures value { result ≡ slice_index (gaps (sums_read sums.now)) i }
    ensures counted { steps.old ≤ steps.new }
    ensures cost { steps.new ≤ steps.old + 76 }
{
    let (low, high) = sums.pair(i, steps);
    high.saturating_sub(low)
}
