//! What a build is asked for, as numbers.

ghost use Rattle.std.specs.Prelude.{◌≡◌, ◌<◌, ◌≤◌, ◌⊎◌, IsTrue, false, true};
ghost use Rattle.sx_spec.specs.Kinds as kinds;
ghost use Rattle.sux_c.specs.Plans.{GoesWith, IsAsked, IsWithin, plan_of};

use crate::header::{kind_of, method_of};
use sx_kinds::kinds::{uses_buckets, uses_handles, uses_method};
use sx_spec::{Kind, Plan};

/// The kind and the options of a build. Kind and method are told by their codes, and an option that
/// doesn't go with the kind is 0.
#[repr(C)]
#[derive(Clone, Copy)]
pub struct SuxPlan {
    pub log_bucket: u32,
    pub sig_bits: u32,
    pub handle_bits: u32,
    pub signed_bits: u32,
    pub kind: u8,
    pub method: u8,
}

impl SuxPlan {
    /// Whether there are such a kind and such a method, and each option is within its range and goes
    /// with the kind.
    pub fn is_asked(&self) -> bool
        ensures yes { result ≡ true → IsAsked self.now }
        ensures no { result ≡ false → ¬ IsAsked self.now }
    {
        self.is_within() && self.goes_with(kind_of(self.kind))
    }

    /// Whether there are such a kind and such a method, and each option is within its range.
    fn is_within(&self) -> bool
        ensures yes { result ≡ true → IsWithin self.now }
        ensures no { result ≡ false → ¬ IsWithin self.now }
    {
        self.kind < 6
            && self.method < 2
            && self.log_bucket <= 12
            && self.sig_bits <= 192
            && self.handle_bits <= 64
            && self.signed_bits <= 64
    }

    /// Whether the options that don't go with the kind are 0.
    fn goes_with(&self, kind: Kind) -> bool
        ensures yes { result ≡ true → GoesWith kind self.now }
        ensures no { result ≡ false → ¬ GoesWith kind self.now }
    {
        (uses_method(kind) || self.method == 0)
            && (uses_buckets(kind) || self.log_bucket == 0)
            && (uses_handles(kind) || self.handle_bits == 0)
    }

    /// The plan of these numbers.
    pub fn to_plan(&self) -> Plan
        ensures { result ≡ plan_of self.now }
    {
        Plan {
            kind: kind_of(self.kind),
            method: method_of(self.method),
            log_bucket: self.log_bucket,
            sig_bits: self.sig_bits,
            handle_bits: self.handle_bits,
            signed: self.signed_bits,
        }
    }
}
