ghost use Rattle.std.specs.Prelude.{◌≡◌, ◌≢◌, ◌<◌, Some, None, Option};
ghost use Rattle.text.specs.Digit.{digit, digit_value};

// What a digit counts, up to 15; capital letters count as the small ones do.
pub(crate) fn value_of(letter: u8) -> Option<u8>
    ensures { result ≡ digit_value letter }
{
    match letter {
        b'0'..=b'9' => Some(letter - b'0'),
        b'a'..=b'f' => Some(letter - b'a' + 10),
        b'A'..=b'F' => Some(letter - b'A' + 10),
        _ => None,
    }
}

// What a letter counts that is a digit, found without a test.
pub(crate) fn counted(letter: u8) -> u8
    requires { digit_value letter ≢ None }
    ensures value { Some result ≡ digit_value letter }
    ensures below { result < 16 }
{
    letter % 16 + 9 * (letter / 64)
}

// The digit that counts so much.
pub(crate) fn digit_of(value: u8) -> u8
    requires { value < 16 }
    ensures letter { result ≡ digit value }
    ensures ascii { result < 128 }
{
    if value < 10 {
        b'0' + value
    } else {
        b'a' + (value - 10)
    }
}
