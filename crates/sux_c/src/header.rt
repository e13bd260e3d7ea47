//! The header of a dump, as numbers.

ghost use Rattle.std.specs.Prelude.{◌≡◌, slice_get, unwrap_or};
ghost use Rattle.sx_spec_kinds.specs.declared.Kind.TheVariants.{Func};
ghost use Rattle.sx_spec.specs.declared.Method.TheVariants.{Mwhc};
ghost use Rattle.sx_spec.specs.Layout as layout;
ghost use Rattle.sux_c.specs.Headers.{header_in};

use sx_sections::header::Header;
use sx_spec::{Kind, Method, Plan};

/// What was asked for, the number of keys, and the seed. Kind and method are told by their codes.
#[repr(C)]
#[derive(Clone, Copy)]
pub struct SuxHeader {
    pub seed: u64,
    pub keys: u32,
    pub sig_bits: u32,
    pub log_bucket: u32,
    pub signed_bits: u32,
    pub handle_bits: u32,
    pub kind: u8,
    pub method: u8,
}

/// The code of a kind.
pub fn kind_code(kind: Kind) -> u8
    ensures code { result ≡ layout.kind_code kind }
    ensures back { unwrap_or (slice_get layout.kinds result) Func ≡ kind }
{
    match kind {
        Kind::Func => 0,
        Kind::Lcp => 1,
        Kind::Lcp2 => 2,
        Kind::Hollow => 3,
        Kind::HollowDist => 4,
        Kind::Zfast => 5,
    }
}

/// The code of a method.
fn method_code(method: Method) -> u8
    ensures { unwrap_or (slice_get layout.methods result) Mwhc ≡ method }
{
    match method {
        Method::Mwhc => 0,
        Method::Gov3 => 1,
    }
}

/// The kind of a code.
pub fn kind_of(code: u8) -> Kind
    ensures { result ≡ unwrap_or (slice_get layout.kinds code) Func }
{
    match code {
        1 => Kind::Lcp,
        2 => Kind::Lcp2,
        3 => Kind::Hollow,
        4 => Kind::HollowDist,
        5 => Kind::Zfast,
        _ => Kind::Func,
    }
}

/// The method of a code.
pub fn method_of(code: u8) -> Method
    ensures { result ≡ unwrap_or (slice_get layout.methods code) Mwhc }
{
    match code {
        1 => Method::Gov3,
        _ => Method::Mwhc,
    }
}

impl SuxHeader {
    /// The numbers of a header.
    pub fn of(header: &Header) -> SuxHeader
        ensures { header_in result ≡ header.now }
    {
        SuxHeader {
            seed: header.seed,
            keys: header.keys,
            sig_bits: header.plan.sig_bits,
            log_bucket: header.plan.log_bucket,
            signed_bits: header.plan.signed,
            handle_bits: header.plan.handle_bits,
            kind: kind_code(header.plan.kind),
            method: method_code(header.plan.method),
        }
    }

    /// The header of these numbers.
    pub fn to_header(&self) -> Header
        ensures { result ≡ header_in self.now }
    {
        Header {
            plan: Plan {
                kind: kind_of(self.kind),
                method: method_of(self.method),
                log_bucket: self.log_bucket,
                sig_bits: self.sig_bits,
                handle_bits: self.handle_bits,
                signed: self.signed_bits,
            },
            keys: self.keys,
            seed: self.seed,
        }
    }
}
