//! Binary digits of numbers.

ghost use Rattle.std.specs.Prelude.{◌≡◌, ◌≤◌};
ghost use Rattle.sx_spec_strings.specs.Numbers.{binary_digits as digits_of};

/// How many binary digits a number has; 0 where it is 0.
#[tactic(auto, using(crate::proofs::LeadingZeros::digits_are))]
pub fn binary_digits(number: u64) -> u32
    ensures value { result ≡ digits_of number }
    ensures bound { result ≤ 64 }
{
    64 - number.leading_zeros()
}
