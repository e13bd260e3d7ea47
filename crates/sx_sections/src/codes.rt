//! The codes of kinds and methods.

ghost use Rattle.std.specs.Prelude.{◌≡◌, slice_get};
ghost use Rattle.sx_spec.specs.Layout as layout;

use sx_spec::{Kind, Method};

/// The code of a kind.
pub fn kind_code(kind: Kind) -> u64
    ensures { result ≡ layout.kind_code kind }
{
    match kind {
        Kind::Func => 0,
        Kind::Lcp => 1,
        Kind::Lcp2 => 2,
        Kind::Hollow => 3,
        Kind::HollowDist => 4,
        Kind::Zfast => 5,
    }
}

/// The kind of a code.
pub fn kind_of(code: u64) -> Option<Kind>
    ensures { result ≡ slice_get layout.kinds code }
{
    match code {
        0 => Some(Kind::Func),
        1 => Some(Kind::Lcp),
        2 => Some(Kind::Lcp2),
        3 => Some(Kind::Hollow),
        4 => Some(Kind::HollowDist),
        5 => Some(Kind::Zfast),
        _ => None,
    }
}

/// The code of a method.
pub fn method_code(method: Method) -> u64
    ensures { result ≡ layout.method_code method }
{
    match method {
        Method::Mwhc => 0,
        Method::Gov3 => 1,
    }
}

/// The method of a code.
pub fn method_of(code: u64) -> Option<Method>
    ensures { result ≡ slice_get layout.methods code }
{
    match code {
        0 => Some(Method::Mwhc),
        1 => Some(Method::Gov3),
        _ => None,
    }
}
