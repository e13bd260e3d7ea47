//! The lengths that fat binary search asks.

ghost use Rattle.std.specs.Prelude.{◌≡◌, ◌<◌, ◌≤◌};
ghost use Rattle.sx_spec_kinds.specs.Fattest.{fattest as fattest_of};

/// The one of the numbers `a + 1` to `b` that is divisible by the largest power of two. `a` is below
/// `b`.
#[inline(always)]
pub fn fattest(a: u32, b: u32) -> u32
    requires { a < b }
    ensures value { result ≡ fattest_of a b }
    ensures above { a < result }
    ensures within { result ≤ b }
{
    // the bits of `b` down to the highest one in which it differs from `a`
    let low = 31 - (a ^ b).leading_zeros();
    b >> low << low
}
