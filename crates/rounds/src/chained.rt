ghost use Rattle.std.specs.Prelude.{◌<◌};

use crate::block::Block;
use record::kind::RecordKind;
use record::meter::Meter;

// Records of which each is made from the one that was shown before, so that no call can be left out.
pub trait Chained: RecordKind {
    // The record that a round serves after this one was shown.
    fn following(&self, round: u32) -> Self;

    // A number that the record decides.
    fn sample(&self, round: u32) -> u32;
}

impl Chained for Meter {
    fn following(&self, round: u32) -> Meter {
        let pulses = self.pulses.wrapping_mul(1_664_525).wrapping_add(round);
        Meter {
            pulses,
            centidegrees: self.centidegrees.wrapping_add(7),
            valid: pulses % 2 == 1,
        }
    }

    fn sample(&self, _round: u32) -> u32 {
        if self.valid {
            self.pulses.wrapping_add(1)
        } else {
            self.pulses
        }
    }
}

// The octet that a round changes, and the one that it looks at.
fn place(round: u32, step: u32) -> usize
    ensures { result < 1500 }
{
    (u64::from(round) * u64::from(step) % 1500) as usize
}

impl Chained for Block {
    fn following(&self, round: u32) -> Block {
        let mut octets = self.octets;
        let at = place(round, 1);
        octets[at] = octets[at].wrapping_mul(5).wrapping_add((round % 256) as u8);
        Block { octets }
    }

    fn sample(&self, round: u32) -> u32 {
        u32::from(self.octets[place(round, 7)])
    }
}
