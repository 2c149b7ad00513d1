ghost use Rattle.std.specs.Prelude.{◌≡◌, refl, true};
ghost use Rattle.record.specs.Meters.{fields_fit, meter_format};
ghost use Rattle.record.specs.MetersLemmas.{meter_lawful};

use crate::fault::{EncodeRefusal, RecordCause, RecordFault};
use crate::kind::RecordKind;
use crate::octets::whole;

// What a meter tells: the pulses counted, the temperature in hundredths of a degree Celsius, and whether both are valid.
#[derive(Clone, Copy, Debug, PartialEq, Eq)]
pub struct Meter {
    pub pulses: u32,
    pub centidegrees: i16,
    pub valid: bool,
}

// Every count and every temperature fits its field.
fn fits(pulses: u32, centidegrees: i16) -> bool
    ensures meaning { result ≡ fields_fit pulses centidegrees }
    ensures always { result ≡ true }
{
    true
}

impl RecordKind for Meter {
    const LENGTH: usize = 7;

    const STRUCTURE_SIGNATURE: u32 = 0x4D45_5452;

    ghost LENGTH = { meter_format.len };

    ghost STRUCTURE_SIGNATURE = { meter_format.structure };

    ghost format = { meter_format };

    ghost lawful = { meter_lawful };

    ghost length_is = { refl };

    ghost structure_is = { refl };

    fn substitute() -> Meter {
        Meter {
            pulses: 0,
            centidegrees: 0,
            valid: false,
        }
    }

    // Every meter record is sound.
    fn is_sound(&self) -> bool
        ensures meaning { result ≡ meter_format.sound self.now }
        ensures always { result ≡ true }
    {
        fits(self.pulses, self.centidegrees)
    }

    fn encode(&self, out: &mut [u8]) -> Result<(), EncodeRefusal> {
        let meter = *self;
        let out = out.first_chunk_mut().ok_or(EncodeRefusal::Short)?;
        let [p0, p1, p2, p3] = meter.pulses.to_le_bytes();
        let [c0, c1] = meter.centidegrees.to_le_bytes();
        *out = [p0, p1, p2, p3, c0, c1, u8::from(meter.valid)];
        Ok(())
    }

    fn decode(octets: &[u8]) -> Result<Meter, RecordFault> {
        let [p0, p1, p2, p3, c0, c1, valid] = *whole::<7>(octets)?;
        if valid > 1 {
            return Err(RecordFault {
                cause: RecordCause::Boolean,
                place: 6,
            });
        }
        Ok(Meter {
            pulses: u32::from_le_bytes([p0, p1, p2, p3]),
            centidegrees: i16::from_le_bytes([c0, c1]),
            valid: valid == 1,
        })
    }
}
