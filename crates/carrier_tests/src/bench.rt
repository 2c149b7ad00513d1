// What is asked of a carrier, and the answer: that it was so, or what was not.
use crate::bench::Asked::*;
use crate::common::{BLANK, is_blank};
use carrier::Carrier;
use carrier::lane::Lane;
use message::response::LONGEST;
use std::array::from_fn;

// What is asked of a lane, and of the script of a disturber.
#[derive(Clone, Copy, Debug, PartialEq)]
pub(crate) enum Asked {
    Takes,
    Refuses(u8),
    Brings,
    IsEmpty,
    RefusesShort,
    Fills,
}

// What was not so: what was asked, on which lane, and the length and the first octets of the message.
#[derive(Clone, Copy, Debug, PartialEq)]
pub(crate) struct Missed {
    asked: Asked,
    lane: Lane,
    length: usize,
    head: [u8; 32],
}

pub(crate) type Answer = Result<(), Missed>;

// The answer of what was asked, if it was so or not.
pub(crate) fn answer(so: bool, asked: Asked, lane: Lane, message: &[u8]) -> Answer {
    if so {
        return Ok(());
    }
    Err(Missed {
        asked,
        lane,
        length: message.len(),
        head: from_fn(|k| message.get(k).copied().unwrap_or(0)),
    })
}

// A carrier that is tested.
#[derive(Drop)]
pub(crate) struct Bench<C> {
    pub(crate) carrier: C,
}

impl<C: Carrier> Bench<C> {
    // The message is taken.
    pub(crate) fn takes(&mut self, lane: Lane, message: &[u8]) -> Answer {
        let taken = self.carrier.place(lane, message).is_ok();
        answer(taken, Takes, lane, message)
    }

    // The message is refused with this number.
    pub(crate) fn refuses(&mut self, lane: Lane, message: &[u8], number: u8) -> Answer {
        let refusal = self.carrier.place(lane, message).err();
        let refused = refusal.is_some_and(|refusal| refusal.number() == number);
        answer(refused, Refuses(number), lane, message)
    }

    // A fetch brings this message, and leaves what lies behind it in the buffer.
    pub(crate) fn brings(&mut self, lane: Lane, message: &[u8]) -> Answer {
        let mut buffer = [BLANK; LONGEST];
        let fetched = self.carrier.fetch(lane, &mut buffer);
        let brought = fetched == Ok(Some(message.len()))
            && buffer.starts_with(message)
            && buffer.get(message.len()..).is_some_and(is_blank);
        answer(brought, Brings, lane, message)
    }

    // A fetch brings nothing, and leaves the buffer.
    pub(crate) fn is_empty(&mut self, lane: Lane) -> Answer {
        let mut buffer = [BLANK; LONGEST];
        let fetched = self.carrier.fetch(lane, &mut buffer);
        answer(fetched == Ok(None) && is_blank(&buffer), IsEmpty, lane, &[])
    }

    // A fetch into a buffer of 1,524 octets is refused with 7, and leaves the buffer.
    pub(crate) fn refuses_short(&mut self, lane: Lane) -> Answer {
        let mut buffer = [BLANK; LONGEST - 1];
        let refusal = self.carrier.fetch(lane, &mut buffer).err();
        let refused = refusal.is_some_and(|refusal| refusal.number() == 7);
        answer(refused && is_blank(&buffer), RefusesShort, lane, &[])
    }
}
