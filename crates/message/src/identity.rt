ghost use Rattle.std.specs.Prelude.{◌≡◌};
ghost use Rattle.message.specs.Identity.{identities_of};

use crate::parameters::Parameters;
use record::kind::RecordKind;

// The code of each level, from level 1 to level 4. Any two of them differ in at least 21 bits.
const LEVEL_CODES: [u32; 4] = [0x1191_2881, 0x647C_4654, 0xDEAA_9DEE, 0xAB47_F33B];

// The three identity numbers by which a consumer knows a response of its provider.
#[derive(Clone, Copy)]
pub struct Identities {
    pub first: u32,
    pub second: u32,
    pub third: u32,
}

impl Identities {
    // Those of a provider of records of kind K under these parameters.
    pub fn of<K: RecordKind>(parameters: &Parameters) -> Identities
        ensures { result ≡ identities_of K.RecordKind.format parameters.now }
    {
        let base = parameters.base_id;
        Identities {
            first: base.w1 ^ LEVEL_CODES[(parameters.level - 1) as usize],
            second: base.w2 ^ K::STRUCTURE_SIGNATURE,
            third: base.w3 ^ base.w4 ^ parameters.provider_id,
        }
    }
}
