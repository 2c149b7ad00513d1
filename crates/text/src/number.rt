ghost use Rattle.std.specs.Prelude.{◌≡◌, ◌^◌, ◌<◌, ◌≤◌, Some, None, Option};
ghost use Rattle.text.specs.Digit.{digit_value};
ghost use Rattle.text.specs.Number.{below, appended, numeral, number, positive, negative, integer};

use crate::digit::value_of;

// A number with one more digit behind it.
fn with_digit(radix: u64, n: u64, letter: u8) -> Option<u64>
    ensures { result ≡ below (2 ^ 64) (appended radix n (digit_value letter)) }
{
    let value = u64::from(value_of(letter)?);
    if value >= radix {
        return None;
    }
    n.checked_mul(radix)?.checked_add(value)
}

// The number that these digits write.
fn numeral_of(radix: u64, digits: &[u8]) -> Option<u64>
    requires { 0 < radix }
    ensures { result ≡ below (2 ^ 64) (numeral radix digits.now) }
{
    if digits.is_empty() {
        return None;
    }
    let mut n = 0;
    for letter in digits {
        match with_digit(radix, n, *letter) {
            Some(longer) => n = longer,
            None => return None,
        }
    }
    Some(n)
}

// The number that a text writes in decimal digits, or in hexadecimal ones after 0x.
pub fn number_of(text: &str) -> Option<u64>
    ensures { result ≡ number text.now }
{
    match text.strip_prefix("0x") {
        Some(digits) => numeral_of(16, digits.as_bytes()),
        None => numeral_of(10, text.as_bytes()),
    }
}

// The short number that these digits write. A plus sign is no digit here, though the library takes one.
fn short_of(radix: u32, digits: &str) -> Option<u16>
    requires lowest { 2 ≤ radix }
    requires highest { radix ≤ 16 }
    ensures { result ≡ below (2 ^ 16) (numeral radix digits.now) }
{
    if digits.starts_with('+') {
        return None;
    }
    u16::from_str_radix(digits, radix).ok()
}

// A number up to 32767, as it is.
fn positive_of(n: u16) -> Option<i16>
    ensures { result ≡ positive (Some n) }
{
    if n < 32768 { Some(n as i16) } else { None }
}

// A number up to 32768, taken below zero.
fn negative_of(n: u16) -> Option<i16>
    ensures { result ≡ negative (Some n) }
{
    if n < 32769 {
        Some(-(n as i32) as i16)
    } else {
        None
    }
}

// The number from -32768 to 32767 that a text writes in decimal digits, below zero after a minus sign.
#[tactic(auto, using(crate::proofs::Numerals::none_plain))]
pub fn integer_of(text: &str) -> Option<i16>
    ensures { result ≡ integer text.now }
{
    match text.strip_prefix('-') {
        Some(digits) => negative_of(short_of(10, digits)?),
        None => positive_of(short_of(10, text)?),
    }
}
