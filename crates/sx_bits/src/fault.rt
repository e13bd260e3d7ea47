//! Why a line is refused as a key.

ghost use Rattle.std.specs.Prelude.{◌≡◌};

use std::alloc::AllocError;
use thiserror::Error;

/// Why a key list refuses a line. The reasons are tried in this order.
#[derive(Debug, Drop, Clone, Copy, PartialEq, Eq, Error)]
pub enum KeyFault {
    /// The line holds a zero byte.
    #[error("holds a zero byte")]
    ZeroByte,
    /// The line equals the last key.
    #[error("equal to the line before")]
    Doubled,
    /// The line is below the last key.
    #[error("below the line before")]
    Unordered,
    /// The list has as many keys as it may have.
    #[error("too many keys")]
    TooManyKeys,
    /// With this line the keys would have more bytes than they may have.
    #[error("too many bytes of keys")]
    TooManyBytes,
    /// No memory is left.
    #[error("no memory")]
    Memory,
}

impl From<AllocError> for KeyFault {
    ghost use Rattle.sx_bits.specs.declared.fault.KeyFault.TheVariants.{Memory};

    ghost from_gives = { λ _ e. e ≡ Memory };

    fn from(_: AllocError) -> Self {
        KeyFault::Memory
    }
}
