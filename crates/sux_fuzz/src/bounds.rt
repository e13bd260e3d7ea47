//! How many words a reply may read.
ghost use Rattle.std.specs.Prelude.{◌≡◌, ◌≤◌};
ghost use Rattle.sx_spec_kinds.specs.Reads.{reads_of};

use sx_fields::digits::binary_digits;
use sx_spec::Kind;

/// How many words the reply to a string of so many bits may read, of a dump of this kind with this
/// signed width and so many corrections.
pub fn most_reads(kind: Kind, signed: u64, bits: u64, corrections: u64) -> u64
    requires { bits ≤ 65536 }
    ensures { result ≡ reads_of kind signed bits corrections }
{
    let unsigned = match kind {
        Kind::Func => 8,
        Kind::Lcp => 16,
        Kind::Lcp2 => 34,
        Kind::Hollow => 162 * bits,
        Kind::HollowDist => 170 * bits + 24,
        Kind::Zfast => {
            12 * u64::from(binary_digits(bits)) + 3 * u64::from(binary_digits(corrections)) + 32
        }
    };
    if signed == 0 { unsigned } else { unsigned + 2 }
}
