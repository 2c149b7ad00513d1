ghost use Rattle.std.specs.Prelude.{◌≡◌, Some};
ghost use Rattle.script.specs.Messages.{expected_text, bad_line_text};
ghost use Rattle.script.specs.declared.expected.LineFault.TheVariants as fault;

use std::alloc::{AllocError, AllocFailed};
use std::fmt;

// What a line should have had.
#[derive(Clone, Copy, Debug, PartialEq, Eq)]
pub enum Expected {
    LineName,
    End,
    Text,
    KindName,
    Consumer,
    Provider,
    Base,
    Level,
    Timeout,
    Interval,
    Acknowledgment,
    CarrierName,
    Memories,
    Code,
    Start,
    Reading,
    Enable,
    CycleOption,
    Record,
    Temperature,
    Validity,
    Amount,
    ServeOption,
    LaneName,
    Octets,
    GoodParameters,
    LinkFirst,
    RecordOfKind,
}

impl Expected {
    pub fn text(self) -> &'static str
        ensures { result.now ≡ expected_text self }
    {
        match self {
            Expected::LineName => "kind, parameters, carrier, disturb, link, cycle, serve or place",
            Expected::End => "the end of the line",
            Expected::Text => "text in UTF-8",
            Expected::KindName => "meter or draw",
            Expected::Consumer => "consumer=N, a number of 32 bits",
            Expected::Provider => "provider=N, a number of 32 bits",
            Expected::Base => "base=N,N,N,N, each a number of 32 bits",
            Expected::Level => "level=N",
            Expected::Timeout => "timeout=N",
            Expected::Interval => "interval=N",
            Expected::Acknowledgment => "acknowledgment=yes or acknowledgment=no",
            Expected::CarrierName => "publishing or calling",
            Expected::Memories => "calling UP DOWN, the octets of two memories",
            Expected::Code => "numbers only",
            Expected::Start => "start=N, a number of 32 bits",
            Expected::Reading => "a clock reading, a number of 64 bits",
            Expected::Enable => "enable or disable",
            Expected::CycleOption => "ack or buffer=N, each at most once",
            Expected::Record => "a record: pulses of 32 bits, stop, run or preset",
            Expected::Temperature => "a temperature from -32768 to 32767",
            Expected::Validity => "valid or invalid",
            Expected::Amount => "a decimal number, 0x and 16 digits, inf, -inf or nan",
            Expected::ServeOption =>
                "operator-ack, activate-fsv, test-mode or buffer=N, each at most once",
            Expected::LaneName => "up or down",
            Expected::Octets => "pairs of hexadecimal digits",
            Expected::GoodParameters => "a good parameters line first",
            Expected::LinkFirst => "link start=N first",
            Expected::RecordOfKind => "a record of the link's kind",
        }
    }
}

impl fmt::Display for Expected {
    ghost output = { λ expected. Some (expected_text expected) };

    fn fmt<W: fmt::Write>(&self, f: &mut fmt::Formatter<W>) -> fmt::Result {
        f.write_str(self.text())
    }
}

// Why a line was not read.
#[derive(Clone, Copy, Debug, PartialEq, Eq)]
pub enum LineFault {
    Expected(Expected),
    Memory,
}

impl From<Expected> for LineFault {
    ghost from_gives = { λ e r. r ≡ fault.Expected e };

    fn from(expected: Expected) -> LineFault {
        LineFault::Expected(expected)
    }
}

impl From<AllocError> for LineFault {
    ghost from_gives = { λ e r. r ≡ fault.Memory };

    fn from(_e: AllocError) -> LineFault {
        LineFault::Memory
    }
}

impl<T: Drop> From<AllocFailed<T>> for LineFault {
    ghost from_gives = { λ e r. r ≡ fault.Memory };

    fn from(_e: AllocFailed<T>) -> LineFault {
        LineFault::Memory
    }
}

// A line that a script may not have, by its number from 1.
#[derive(Clone, Copy, Debug, PartialEq, Eq)]
pub struct BadLine {
    pub number: u64,
    pub fault: LineFault,
}

impl fmt::Display for BadLine {
    ghost output = { λ bad. Some (bad_line_text bad) };

    fn fmt<W: fmt::Write>(&self, f: &mut fmt::Formatter<W>) -> fmt::Result {
        let number = self.number;
        match self.fault {
            LineFault::Expected(expected) => write!(f, "line {number}: expected {expected}"),
            LineFault::Memory => write!(f, "line {number}: out of memory"),
        }
    }
}
