// What is tried on a disturber over a carrier that holds messages until they are fetched.
use crate::bench::Asked::Fills;
use crate::bench::{Answer, Bench, Missed, answer};
use crate::common::{damaged, numbered, signed};
use crate::disturbing::Sent::{Damaged, Sound};
use carrier::Carrier;
use carrier::lane::Lane;
use disturber::Disturber;
use disturber::script::Script;

// What is placed or handed out: the sound message of a number, or the same damaged.
#[derive(Clone, Copy, Debug)]
pub(crate) enum Sent {
    Sound(u32),
    Damaged(u32),
}

impl Sent {
    fn octets(self) -> [u8; 32] {
        match self {
            Sound(number) => signed(number),
            Damaged(number) => damaged(signed(number)),
        }
    }
}

// What is placed before a down fetch, and what the fetch hands out.
pub(crate) type Row = (Option<Sent>, Option<Sent>);

// Pass, lose, repeat, damage; then it passes.
pub(crate) const CODES: [u8; 4] = [0, 1, 2, 3];

pub(crate) const CODES_ROWS: [Row; 6] = [
    (Some(Sound(1)), Some(Sound(1))),
    (Some(Sound(2)), None),
    (Some(Sound(3)), Some(Sound(1))),
    (None, Some(Damaged(3))),
    (None, None),
    (Some(Sound(4)), Some(Sound(4))),
];

// A repeat hands out the last sound message that passed; a message that damage makes sound is not handed out.
pub(crate) const KEEPING: [u8; 10] = [2, 0, 2, 0, 2, 0, 2, 3, 0, 2];

pub(crate) const KEEPING_ROWS: [Row; 10] = [
    (None, None),
    (Some(Damaged(1)), Some(Damaged(1))),
    (None, None),
    (Some(Sound(1)), Some(Sound(1))),
    (None, Some(Sound(1))),
    (Some(Damaged(2)), Some(Damaged(2))),
    (None, Some(Sound(1))),
    (Some(Damaged(2)), None),
    (Some(Sound(3)), Some(Sound(3))),
    (None, Some(Sound(3))),
];

// A disturber over this carrier, with these codes.
fn disturbed<C: Carrier + Drop>(below: C, codes: &[u8]) -> Result<Bench<Disturber<C>>, Missed> {
    let mut script = Script::empty();
    let filled = script.fill(codes).is_ok();
    answer(filled, Fills, Lane::Down, codes)?;
    Ok(Bench {
        carrier: Disturber::new(below, script),
    })
}

// A disturber with these codes does what the rows say.
pub(crate) fn follows<C: Carrier + Drop>(below: C, codes: &[u8], rows: &[Row]) -> Answer {
    let mut bench = disturbed(below, codes)?;
    for (placed, handed) in rows {
        if let Some(sent) = placed {
            bench.takes(Lane::Down, &sent.octets())?;
        }
        match handed {
            Some(sent) => bench.brings(Lane::Down, &sent.octets())?,
            None => bench.is_empty(Lane::Down)?,
        }
    }
    Ok(())
}

// An up fetch uses no code, and neither does one that is refused: the one code loses the first message.
pub(crate) fn uses<C: Carrier + Drop>(below: C) -> Answer {
    let request = numbered(Lane::Up, 1);
    let mut bench = disturbed(below, &[1])?;
    bench.takes(Lane::Up, &request)?;
    bench.takes(Lane::Down, &signed(1))?;
    bench.refuses_short(Lane::Up)?;
    bench.refuses_short(Lane::Down)?;
    bench.brings(Lane::Up, &request)?;
    bench.is_empty(Lane::Up)?;
    bench.takes(Lane::Down, &signed(2))?;
    bench.is_empty(Lane::Down)?;
    bench.brings(Lane::Down, &signed(2))
}
