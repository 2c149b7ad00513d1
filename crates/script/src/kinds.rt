ghost use Rattle.std.specs.Prelude.{◌≡◌, ℕ, List, Some, Option};
ghost use Rattle.std.specs.Fmt.{WritesOnOk};
ghost use Rattle.script.specs.declared.line.Given.{Given};
ghost use Rattle.script.specs.declared.line.Given.TheVariants as given;
ghost use Rattle.script.specs.Givens.{meter_given, draw_given};
ghost use Rattle.script.specs.Records.{meter_text, draw_text, given_text};

use crate::choice::word;
use crate::digits::Double;
use crate::line::Given;
use record::draw::Draw;
use record::kind::RecordKind;
use record::meter::Meter;
use std::fmt;

// A record kind that a script can write.
// Not by the library's conversions: those promise a relation, and the text of a line needs a function of the record.
pub trait Written: RecordKind {
    ghost taken: { Given → Option Self };

    ghost written: { Self → List ℕ };

    // The record, where it is of this kind.
    fn of(given: Given) -> Option<Self>
        ensures { result ≡ taken given };

    // Writes the record as a line has it.
    fn write_to<W: fmt::Write>(&self, f: &mut fmt::Formatter<W>) -> fmt::Result
        ensures { WritesOnOk W.write_str_gives f.old result (written self.now) f.new };
}

impl Written for Meter {
    ghost taken = { meter_given };

    ghost written = { meter_text };

    fn of(given: Given) -> Option<Meter> {
        match given {
            Given::Meter(meter) => Some(meter),
            Given::Draw(_) => None,
        }
    }

    fn write_to<W: fmt::Write>(&self, f: &mut fmt::Formatter<W>) -> fmt::Result {
        let Meter {
            pulses,
            centidegrees,
            valid,
        } = *self;
        let validity = word(valid, "valid", "invalid");
        write!(f, "{pulses} {centidegrees} {validity}")
    }
}

impl Written for Draw {
    ghost taken = { draw_given };

    ghost written = { draw_text };

    fn of(given: Given) -> Option<Draw> {
        match given {
            Given::Meter(_) => None,
            Given::Draw(draw) => Some(draw),
        }
    }

    fn write_to<W: fmt::Write>(&self, f: &mut fmt::Formatter<W>) -> fmt::Result {
        match *self {
            Draw::Stop => write!(f, "stop"),
            Draw::Run(rate) => write!(f, "run {}", Double(rate)),
            Draw::Preset(litres) => write!(f, "preset {}", Double(litres)),
        }
    }
}

// The record as a line gives it.
impl From<Meter> for Given {
    ghost from_gives = { λ meter r. r ≡ given.Meter meter };

    fn from(value: Meter) -> Given
        ensures made { result ≡ given.Meter value }
        ensures text { given_text result ≡ meter_text value }
        ensures same { meter_given result ≡ Some value }
    {
        Given::Meter(value)
    }
}

impl From<Draw> for Given {
    ghost from_gives = { λ draw r. r ≡ given.Draw draw };

    fn from(value: Draw) -> Given
        ensures made { result ≡ given.Draw value }
        ensures text { given_text result ≡ draw_text value }
        ensures same { draw_given result ≡ Some value }
    {
        Given::Draw(value)
    }
}

// The record as a line has it.
impl fmt::Display for Given {
    ghost output = { λ given. Some (given_text given) };

    fn fmt<W: fmt::Write>(&self, f: &mut fmt::Formatter<W>) -> fmt::Result {
        match *self {
            Given::Meter(meter) => meter.write_to(f),
            Given::Draw(draw) => draw.write_to(f),
        }
    }
}
