//! Numbers of 64 bits that a text writes in decimal.
#![tactic(auto)]

ghost use Rattle.std.specs.Prelude.{◌≡◌, ◌&&◌, ◌^◌, Some, None, nat_lt, if◌then◌else◌};
ghost use Rattle.std.specs.Char.{is_ascii_digit};
ghost use Rattle.std.specs.List.{list_all};
ghost use Rattle.sx_spec.specs.Values.{numeral_value, value_on};

#[cfg(test)]
mod tests;

/// The number of 64 bits that digits write.
fn digits_value(text: &[u8]) -> Option<u64>
    ensures { result ≡ (if list_all is_ascii_digit text.now && nat_lt (numeral_value text.now)
        (2 ^ 64) then Some (numeral_value text.now) else None) }
{
    let mut number: u64 = 0;
    for byte in text {
        if !byte.is_ascii_digit() {
            return None;
        }
        let digit = u64::from(*byte - b'0');
        if number > (u64::MAX - digit) / 10 {
            return None;
        }
        number = 10 * number + digit;
    }
    Some(number)
}

/// The number below 2^64 that the text is: `0`, or digits of which the first isn't `0`.
pub fn number_of(text: &[u8]) -> Option<u64>
    ensures { result ≡ value_on text.now }
{
    if text.len() == 1 || (text.len() > 1 && text[0] > b'0') {
        digits_value(text)
    } else {
        None
    }
}
