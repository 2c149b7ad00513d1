ghost use Rattle.std.specs.Prelude.{◌≡◌};
ghost use Rattle.message.specs.Number.{next_number};

// The monitoring number of the request after one with this number.
pub fn next_number(number: u32) -> u32
    ensures { result ≡ next_number number }
{
    if number == u32::MAX { 256 } else { number + 1 }
}
