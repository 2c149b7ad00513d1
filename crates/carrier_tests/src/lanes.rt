// What is tried on the lanes of a carrier.
use crate::bench::{Answer, Bench};
use crate::common::{numbered, too_many};
use crate::lanes::Turn::{Fetch, Place};
use carrier::Carrier;
use carrier::lane::Lane;
use message::response::LONGEST;

// A place or a fetch of the message with this number: turns are rows of constants, and a constant holds no closure.
#[derive(Clone, Copy)]
enum Turn {
    Place(u8),
    Fetch(u8),
}

// Five places and five fetches: one to three messages wait in turn.
const TURNS: [Turn; 10] = [
    Place(0),
    Place(1),
    Fetch(0),
    Place(2),
    Place(3),
    Fetch(1),
    Fetch(2),
    Place(4),
    Fetch(3),
    Fetch(4),
];

impl<C: Carrier> Bench<C> {
    // Just so many messages are taken, and the next is refused with 10.
    fn fills(&mut self, lane: Lane, slots: u8) -> Answer {
        for k in 0..slots {
            self.takes(lane, &numbered(lane, k))?;
        }
        self.refuses(lane, &numbered(lane, slots), 10)
    }

    // They come in their order, and then nothing.
    fn drains(&mut self, lane: Lane, slots: u8) -> Answer {
        for k in 0..slots {
            self.brings(lane, &numbered(lane, k))?;
        }
        self.is_empty(lane)
    }

    // A turn, its number counted from this one on.
    fn turns(&mut self, lane: Lane, turn: Turn, from: u8) -> Answer {
        match turn {
            Place(k) => self.takes(lane, &numbered(lane, from.wrapping_add(k))),
            Fetch(k) => self.brings(lane, &numbered(lane, from.wrapping_add(k))),
        }
    }

    // Messages of the fewest and of the most octets, whole, and nothing of them in the other lane.
    pub(crate) fn whole(&mut self, lane: Lane, other: Lane) -> Answer {
        let all = too_many();
        for length in [LONGEST, 1, LONGEST - 1, 2] {
            let message = &all[..length];
            self.takes(lane, message)?;
            self.is_empty(other)?;
            self.brings(lane, message)?;
        }
        Ok(())
    }

    // Refusals while a message is held, and what is held stands.
    pub(crate) fn refusals(&mut self, lane: Lane) -> Answer {
        let held = numbered(lane, 1);
        self.takes(lane, &held)?;
        self.refuses(lane, &[], 9)?;
        self.refuses(lane, &too_many(), 9)?;
        self.refuses_short(lane)?;
        self.brings(lane, &held)
    }

    // A carrier that takes and brings nothing.
    pub(crate) fn nothing(&mut self, lane: Lane) -> Answer {
        self.refuses(lane, &numbered(lane, 1), 10)?;
        self.refuses(lane, &[], 9)?;
        self.refuses(lane, &too_many(), 9)?;
        self.refuses_short(lane)?;
        self.is_empty(lane)
    }
}

// Both lanes, filled to the brim before either is emptied.
pub(crate) fn brim<C: Carrier + Drop>(carrier: C, up_slots: u8, down_slots: u8) -> Answer {
    let mut bench = Bench { carrier };
    bench.fills(Lane::Up, up_slots)?;
    bench.fills(Lane::Down, down_slots)?;
    bench.drains(Lane::Up, up_slots)?;
    bench.drains(Lane::Down, down_slots)
}

// A hundred and twenty messages through each lane, in their order.
pub(crate) fn wrap<C: Carrier + Drop>(carrier: C) -> Answer {
    let mut bench = Bench { carrier };
    for round in 0..24u8 {
        for turn in TURNS {
            bench.turns(Lane::Up, turn, 5 * round)?;
            bench.turns(Lane::Down, turn, 5 * round)?;
        }
    }
    Ok(())
}

// A trial of both lanes of a carrier, each with the other.
pub(crate) fn both<C: Carrier + Drop, T: Fn(&mut Bench<C>, Lane, Lane) -> Answer>(
    carrier: C,
    trial: T,
) -> Answer
    requires { T.IsAlwaysCallable trial }
{
    let mut bench = Bench { carrier };
    trial(&mut bench, Lane::Up, Lane::Down)?;
    trial(&mut bench, Lane::Down, Lane::Up)
}
