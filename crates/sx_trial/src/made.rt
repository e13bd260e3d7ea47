//! The lines of a trial: numbers in eight decimal digits.
ghost use Rattle.std.specs.Prelude.{◌≡◌, ◌+◌, ◌/◌, ◌%◌, ◌≤◌, ◌<◌, IfOk};
ghost use Rattle.sx_spec.specs.Trial.{eight_digits as digits_of, trial_keys};
ghost use Rattle.sx_spec.specs.Values.{plain_values};

use std::alloc::{AllocError, Global};
use sx_bits::{KeyFault, KeyList, Limits};

/// The decimal digit of a number at a power of ten.
#[inline(always)]
fn digit(number: u32, power: u32) -> u8
    requires { 0 < power }
    ensures { result ≡ 48 + number / power % 10 }
{
    b'0' + (number / power % 10) as u8
}

/// The last eight decimal digits of a number, with leading zeros.
#[inline(always)]
pub fn eight_digits(number: u32) -> [u8; 8]
    ensures { result ≡ digits_of number }
{
    [
        digit(number, 10_000_000),
        digit(number, 1_000_000),
        digit(number, 100_000),
        digit(number, 10_000),
        digit(number, 1_000),
        digit(number, 100),
        digit(number, 10),
        digit(number, 1),
    ]
}

/// The keys of a trial: the numbers below so many.
pub fn made_keys(alloc: Global, count: u32) -> Result<KeyList, AllocError>
    requires { count ≤ 1000000 }
    ensures { IfOk result (λ keys. keys.lines ≡ trial_keys count) }
{
    let mut keys = KeyList::new(alloc, Limits::standard());
    for number in 0..count {
        match keys.push(&eight_digits(number)) {
            Ok(()) => {}
            Err(fault) => match fault {
                KeyFault::Memory => return Err(AllocError),
                // each line is above those before, and all are within the limits
                _ => unreachable!(),
            },
        }
    }
    Ok(keys)
}

/// The values of a trial: the keys' numbers.
pub fn made_values(alloc: Global, count: u32) -> Result<Vec<u64>, AllocError>
    ensures { IfOk result (λ values. values.items ≡ plain_values count) }
{
    (0..u64::from(count)).collect(alloc)
}
