ghost use Rattle.std.specs.Prelude.{◌≡◌};
ghost use Rattle.consumer.specs.Making.{Started, start_number};

use crate::start::StartNumber;

// Why a start number was not made.
#[derive(Clone, Copy, Debug, PartialEq, Eq)]
pub enum StartRefusal {
    // it is below 256
    Low,
}

impl StartRefusal {
    // The number that the rules of the link give it.
    pub fn number(&self) -> u8
        ensures { result ≡ start_number self.now }
    {
        match self {
            StartRefusal::Low => 4,
        }
    }
}

impl StartNumber {
    // A number of at least 256. By the rules of the link a start number is made, not converted: so `new` and `value`, and no
    // `TryFrom` or `From`.
    pub fn new(value: u32) -> Result<StartNumber, StartRefusal>
        ensures { Started value result }
    {
        if value < 256 {
            return Err(StartRefusal::Low);
        }
        Ok(StartNumber { value })
    }

    pub fn value(self) -> u32
        ensures { result ≡ self.value }
    {
        self.value
    }
}
