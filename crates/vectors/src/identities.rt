use crate::tally::Tally;
use message::identity::Identities;
use message::parameters::{BaseId, Parameters};
use record::meter::Meter;
use std::io;

// Parameters of consumer 7.
pub fn parameters(base_id: BaseId, provider_id: u32, level: u8) -> Parameters {
    Parameters {
        consumer_id: 7,
        provider_id,
        base_id,
        level: level.clamp(1, 4),
        timeout: 100,
        error_interval: 6,
        operator_ack_necessary: false,
    }
}

// With a first word of 0, identity 1 is the code of the level.
pub fn levels(tally: &mut Tally) -> io::Result<()> {
    let codes = [
        (1, 0x1191_2881),
        (2, 0x647C_4654),
        (3, 0xDEAA_9DEE),
        (4, 0xAB47_F33B),
    ];
    for (level, code) in codes {
        let came = Identities::of::<Meter>(&parameters(BaseId::new(0, 0, 0, 0), 0, level));
        tally.number(&format_args!("code of level {level}"), code, came.first)?;
    }
    Ok(())
}

// The words of the GUID 72962B91-FA75-4AE6-8D28-B404DC7DAF63 as OPC UA encodes it.
const GUID: [[u8; 4]; 4] = [
    [0x91, 0x2B, 0x96, 0x72],
    [0x75, 0xFA, 0xE6, 0x4A],
    [0x8D, 0x28, 0xB4, 0x04],
    [0xDC, 0x7D, 0xAF, 0x63],
];

// The worked example of a provider of level 3. Its structure signature is none of ours, so the second word is given with
// that signature in the place of the meter's.
pub fn example(tally: &mut Tally) -> io::Result<()> {
    let [w1, w2, w3, w4] = GUID.map(u32::from_le_bytes);
    let base_id = BaseId::new(w1, w2 ^ 0xDE73_29FD ^ 0x4D45_5452, w3, w4);
    let came = Identities::of::<Meter>(&parameters(base_id, 0xE0EA_6B40, 3));
    let numbers = [
        (1, 0xAC3C_B67F, came.first),
        (2, 0x9495_D388, came.second),
        (3, 0x87F1_3E11, came.third),
    ];
    for (number, expected, came) in numbers {
        tally.number(
            &format_args!("identity {number} of the worked example"),
            expected,
            came,
        )?;
    }
    Ok(())
}
