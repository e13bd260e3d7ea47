//! Kinds and methods: their words, and what a kind uses.

ghost use Rattle.std.specs.Prelude.{◌≡◌, ◌≤◌, length};
ghost use Rattle.sx_spec.specs.Kinds as kinds;

use sx_spec::{Kind, Method};

/// Whether the kind has functions, which are built by a method.
pub fn uses_method(kind: Kind) -> bool
    ensures { result ≡ kinds.uses_method kind }
{
    !matches!(kind, Kind::Hollow)
}

/// Whether the kind puts its keys into blocks.
pub fn uses_buckets(kind: Kind) -> bool
    ensures { result ≡ kinds.uses_buckets kind }
{
    !matches!(kind, Kind::Func | Kind::Hollow)
}

/// Whether the kind keeps handles.
pub fn uses_handles(kind: Kind) -> bool
    ensures { result ≡ kinds.uses_handles kind }
{
    matches!(kind, Kind::Zfast)
}

/// The word for a kind.
pub fn kind_word(kind: Kind) -> &'static str
    ensures word { result.now ≡ kinds.kind_word kind }
    ensures short { length result.now ≤ 10 }
{
    match kind {
        Kind::Func => "func",
        Kind::Lcp => "lcp",
        Kind::Lcp2 => "lcp2",
        Kind::Hollow => "hollow",
        Kind::HollowDist => "hollowdist",
        Kind::Zfast => "zfast",
    }
}

/// The word for a method.
pub fn method_word(method: Method) -> &'static str
    ensures word { result.now ≡ kinds.method_word method }
    ensures short { length result.now ≤ 4 }
{
    match method {
        Method::Mwhc => "mwhc",
        Method::Gov3 => "gov3",
    }
}
