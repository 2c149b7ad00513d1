// Numbers in hexadecimal digits.
ghost use Rattle.std.specs.Prelude.{Some};
ghost use Rattle.script.specs.Records.{double_text};

use std::fmt;
use std::num::f64_to_bits_with_nan;

// The 64 bits of a number, in capitals.
#[derive(Clone, Copy)]
pub(crate) struct Double(pub f64);

impl fmt::Display for Double {
    ghost output = { λ number. Some (double_text number.0) };

    fn fmt<W: fmt::Write>(&self, f: &mut fmt::Formatter<W>) -> fmt::Result {
        let bits = f64_to_bits_with_nan(self.0);
        write!(f, "0x{bits:016X}")
    }
}
