ghost use Rattle.std.specs.Prelude.{◌≡◌, refl};
ghost use Rattle.record.specs.Draws.{draw_format, double_read, number_sound, number_written, draw_written};
ghost use Rattle.record.specs.DrawsLemmas.{draw_lawful};
ghost use Rattle.record.specs.declared.fault.RecordCause.TheVariants.{NotFinite};
ghost use Rattle.std.specs.Option.{ok_or};

use crate::fault::{EncodeRefusal, RecordCause, RecordFault};
use crate::kind::RecordKind;
use crate::octets::whole;
use std::num::f64_from_bits_with_nan;

// What the bay is told: to stop, to run at a rate in litres a minute, or to draw so many litres.
#[derive(Clone, Copy, Debug, PartialEq)]
pub enum Draw {
    Stop,
    Run(f64),
    Preset(f64),
}

// The finite number of these bits.
fn finite_double(bits: u64) -> Option<f64>
    ensures { result ≡ double_read bits }
{
    let x = f64_from_bits_with_nan(bits);
    x.is_finite().then_some(x)
}

// The number of these bits, as a record has it.
fn number(bits: u64) -> Result<f64, RecordFault>
    ensures { result ≡ ok_or (double_read bits) (record { cause = NotFinite; place = 1 }) }
{
    finite_double(bits).ok_or(RecordFault {
        cause: RecordCause::NotFinite,
        place: 1,
    })
}

// Can the number be sent?
fn is_sound_number(x: f64) -> bool
    ensures { result ≡ number_sound x }
{
    x.is_finite()
}

// A tag and a finite number.
fn tagged(tag: u8, x: f64) -> Result<[u8; 9], EncodeRefusal>
    ensures { result ≡ number_written tag x }
{
    if !x.is_finite() {
        return Err(EncodeRefusal::Unsound);
    }
    let [n0, n1, n2, n3, n4, n5, n6, n7] = x.to_le_bytes();
    Ok([tag, n0, n1, n2, n3, n4, n5, n6, n7])
}

impl Draw {
    // The octets of a sound record.
    fn octets(&self) -> Result<[u8; 9], EncodeRefusal>
        ensures { result ≡ draw_written self.now }
    {
        match *self {
            Draw::Stop => Ok([0; 9]),
            Draw::Run(rate) => tagged(1, rate),
            Draw::Preset(litres) => tagged(2, litres),
        }
    }
}

impl RecordKind for Draw {
    const LENGTH: usize = 9;

    const STRUCTURE_SIGNATURE: u32 = 0x4452_4157;

    ghost LENGTH = { draw_format.len };

    ghost STRUCTURE_SIGNATURE = { draw_format.structure };

    ghost format = { draw_format };

    ghost lawful = { draw_lawful };

    ghost length_is = { refl };

    ghost structure_is = { refl };

    fn substitute() -> Draw {
        Draw::Stop
    }

    fn is_sound(&self) -> bool {
        match *self {
            Draw::Stop => true,
            Draw::Run(x) | Draw::Preset(x) => is_sound_number(x),
        }
    }

    fn encode(&self, out: &mut [u8]) -> Result<(), EncodeRefusal> {
        let out = out.first_chunk_mut().ok_or(EncodeRefusal::Short)?;
        *out = self.octets()?;
        Ok(())
    }

    fn decode(octets: &[u8]) -> Result<Draw, RecordFault> {
        let [tag, b0, b1, b2, b3, b4, b5, b6, b7] = *whole::<9>(octets)?;
        let bits = u64::from_le_bytes([b0, b1, b2, b3, b4, b5, b6, b7]);
        match tag {
            0 if bits == 0 => Ok(Draw::Stop),
            0 => Err(RecordFault {
                cause: RecordCause::NotZero,
                place: 1,
            }),
            1 => Ok(Draw::Run(number(bits)?)),
            2 => Ok(Draw::Preset(number(bits)?)),
            _ => Err(RecordFault {
                cause: RecordCause::Tag,
                place: 0,
            }),
        }
    }
}
