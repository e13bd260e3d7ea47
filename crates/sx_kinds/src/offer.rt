//! The dumps that the program builds and opens: the one place in the code that says it.

ghost use Rattle.std.specs.Prelude.{◌≡◌};
ghost use Rattle.sx_spec_program.specs.Program.{sux_offer};

use sx_spec::Kind;

/// The kinds that are built and opened.
const KINDS: [Kind; 6] = [
    Kind::Func,
    Kind::Lcp,
    Kind::Lcp2,
    Kind::Hollow,
    Kind::HollowDist,
    Kind::Zfast,
];

/// The greatest signed width.
const SIGNED: u32 = 64;

/// The kinds that are offered.
pub fn kinds() -> &'static [Kind]
    ensures { result.now ≡ sux_offer.kinds }
{
    &KINDS
}

/// The greatest signed width that is offered, in bits.
pub fn signed() -> u32
    ensures { result ≡ sux_offer.signed }
{
    SIGNED
}
