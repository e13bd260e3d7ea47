//! Words, what kinds use, and what is offered, each at a few values.

use crate::kinds::{kind_word, method_word, uses_buckets, uses_handles, uses_method};
use crate::offer::{kinds, signed};
use crate::options::{option_id, option_word};
use sx_spec::{Kind, Method, OptionName};

#[test]
fn words(rt: HostRuntime) {
    assert_eq!(rt; kind_word(Kind::HollowDist), "hollowdist");
    assert_eq!(rt; method_word(Method::Gov3), "gov3");
    assert_eq!(rt; option_word(OptionName::LogBucket), "--log-bucket");
    assert_eq!(rt; option_id(OptionName::HandleBits), "handle-bits");
}

#[test]
fn what_kinds_use(rt: HostRuntime) {
    assert!(rt; uses_method(Kind::Func) && !uses_method(Kind::Hollow));
    assert!(rt; uses_buckets(Kind::Lcp2) && !uses_buckets(Kind::Func));
    assert!(rt; uses_handles(Kind::Zfast) && !uses_handles(Kind::Lcp));
}

#[test]
fn what_is_offered(rt: HostRuntime) {
    assert_eq!(rt; kinds().len(), 6);
    assert_eq!(rt; kinds()[5], Kind::Zfast);
    assert_eq!(rt; signed(), 64);
}
