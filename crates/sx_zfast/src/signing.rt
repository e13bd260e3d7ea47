//! How strings are signed.

ghost use Rattle.std.specs.Prelude.{◌≤◌};

/// The seed, and how many bits of a signature are kept, at most 192.
#[derive(Clone, Copy)]
pub(crate) struct Signing {
    pub(crate) seed: u64,
    pub(crate) sig_bits: u32,
    ghost few: { sig_bits ≤ 192 },
}
