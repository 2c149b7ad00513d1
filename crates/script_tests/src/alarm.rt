// A record kind beside those that a script can name.
ghost use Rattle.std.specs.Prelude.{◌≡◌, refl, true};
ghost use Rattle.script_tests.specs.Alarms.{alarm_format, alarm_lawful, alarm_given, alarm_text};

use record::fault::{EncodeRefusal, RecordCause, RecordFault};
use record::kind::RecordKind;
use record::octets::whole;
use script::kinds::Written;
use script::line::Given;
use std::fmt;

#[derive(Clone, Copy)]
pub struct Alarm {
    pub on: bool,
}

impl RecordKind for Alarm {
    const LENGTH: usize = 1;

    const STRUCTURE_SIGNATURE: u32 = 0x414C_524D;

    ghost LENGTH = { alarm_format.len };

    ghost STRUCTURE_SIGNATURE = { alarm_format.structure };

    ghost format = { alarm_format };

    ghost lawful = { alarm_lawful };

    ghost length_is = { refl };

    ghost structure_is = { refl };

    fn substitute() -> Alarm {
        Alarm { on: false }
    }

    // Every alarm is sound.
    fn is_sound(&self) -> bool {
        true
    }

    fn encode(&self, out: &mut [u8]) -> Result<(), EncodeRefusal> {
        let alarm = *self;
        let out = out.first_chunk_mut().ok_or(EncodeRefusal::Short)?;
        *out = [u8::from(alarm.on)];
        Ok(())
    }

    fn decode(octets: &[u8]) -> Result<Alarm, RecordFault> {
        let [on] = *whole::<1>(octets)?;
        if on > 1 {
            return Err(RecordFault {
                cause: RecordCause::Boolean,
                place: 0,
            });
        }
        Ok(Alarm { on: on == 1 })
    }
}

impl Written for Alarm {
    ghost taken = { alarm_given };

    ghost written = { alarm_text };

    fn of(_given: Given) -> Option<Alarm> {
        None
    }

    fn write_to<W: fmt::Write>(&self, f: &mut fmt::Formatter<W>) -> fmt::Result {
        let on = if self.on { "on" } else { "off" };
        write!(f, "alarm {on}")
    }
}
