// A link taken through steps, and the answer: the first step that does not tell what is said of it, if there is one.
use crate::common::{BLANK, built, flip, is_left, link_over, meter, on, served, sign};
use crate::steps::Heard::{self, *};
use crate::steps::Sight::{self, *};
use crate::steps::Step::{self, *};
use crate::steps::Told::{self, *};
use calling::Calling;
use calling::memory::SLOT;
use carrier::Carrier;
use carrier::lane::Lane;
use carrier::publishing::Publishing;
use consumer::inputs::Inputs;
use link::link::Link;
use message::response::LONGEST;
use record::meter::Meter;

// A stranger's request, with number 256.
const REQUEST: [u8; 9] = [0xD4, 0xC3, 0xB2, 0xA1, 0, 1, 0, 0, 5];

// A link, and the pulses of the response that it built last.
#[derive(Drop)]
struct Bench<C> {
    link: Link<Meter, C>,
    sent: u32,
}

impl<C: Carrier> Bench<C> {
    // The buffer holds only what was fetched, if anything was.
    fn cycles(&mut self, inputs: Inputs, heard: Heard, sight: Sight, buffer: &mut [u8]) -> bool {
        let Ok(answer) = self.link.cycle(inputs, buffer) else {
            return false;
        };
        let fetched = match heard {
            Disabled | Started | Expired | Nothing => 0,
            Ignored | Accepted | Fault(_) => 32,
        };
        Heard::from(answer.event) == heard
            && answer.shown == sight.shown()
            && is_left(buffer, fetched)
    }

    // The buffer holds the response that was built, the octets that are no request, or nothing.
    fn serves(&mut self, pulses: u32, flags: u8, told: Told, buffer: &mut [u8]) -> bool {
        let answer = served(&mut self.link, meter(pulses), flags, buffer);
        if matches!(told, New(_, _) | Refused(10)) {
            self.sent = pulses;
        }
        let (head, size) = match told {
            New(_, _) | Again(_, _) | Refused(10) => (self.sent.to_le_bytes(), 32),
            Refused(11) => ([0xD4, 0xC3, 0xB2, 0xA1], 8),
            _ => ([BLANK; 4], 0),
        };
        Told::from(answer) == told && buffer.starts_with(&head) && is_left(buffer, size)
    }

    fn refuses_short(&mut self, reading: u64) -> bool {
        let mut short = [BLANK; LONGEST - 1];
        let refusal = self.link.cycle(on(reading, true), &mut short).err();
        refusal.is_some_and(|refusal| refusal.number() == 7)
            && self.serves(9, 0, Refused(7), &mut short)
    }

    fn places(&mut self, lane: Lane, message: &[u8]) -> bool {
        self.link.place(lane, message).is_ok()
    }

    fn takes(&mut self, step: Step) -> bool {
        let mut buffer = [BLANK; LONGEST];
        match step {
            On(reading, heard, sight) => self.cycles(on(reading, false), heard, sight, &mut buffer),
            Ack(reading, heard, sight) => self.cycles(on(reading, true), heard, sight, &mut buffer),
            Off(reading) => {
                let off = Inputs {
                    reading,
                    enable: false,
                    ack: false,
                };
                self.cycles(off, Disabled, Blank, &mut buffer)
            }
            Serve(pulses, flags, told) => self.serves(pulses, flags, told, &mut buffer),
            Short(reading) => self.refuses_short(reading),
            Up(size) => self.places(Lane::Up, REQUEST.get(..size).unwrap_or(&[])),
            Down(number, place) => {
                let message = built(meter(9), number, &mut buffer);
                flip(message, place.as_slice());
                sign(message);
                self.places(Lane::Down, message)
            }
            Zeros(size) => self.places(Lane::Down, [0; 32].get(..size).unwrap_or(&[])),
        }
    }
}

// The steps of a link over this carrier, first and last.
fn goes<C: Carrier + Drop>(
    carrier: C,
    necessary: bool,
    first: &[Step],
    last: &[Step],
) -> Option<Step> {
    let mut bench = Bench {
        link: link_over(carrier, necessary),
        sent: 0,
    };
    for step in first.iter().chain(last) {
        if !bench.takes(*step) {
            return Some(*step);
        }
    }
    None
}

// Over a publishing carrier, with acknowledgment after expiry necessary or not.
pub(crate) fn publishes(necessary: bool, steps: &[Step]) -> Option<Step> {
    goes(Publishing::new(), necessary, &[], steps)
}

// Over a calling carrier with one slot a lane, with acknowledgment after expiry necessary.
pub(crate) fn calls(steps: &[Step]) -> Option<Step> {
    let mut up_memory = [0; SLOT];
    let mut down_memory = [0; SLOT];
    goes(
        Calling::new(&mut up_memory, &mut down_memory),
        true,
        &[],
        steps,
    )
}

// The second fault is a repeated one and starts a hold; the wish comes with the response accepted after it.
const HELD: [Step; 8] = [
    On(0, Started, Blank),
    Serve(11, 0, New(256, 4)),
    On(10, Accepted, Values(11)),
    Down(999, None),
    On(20, Fault(24), Values(11)),
    On(30, Fault(24), Blank),
    Serve(12, 0, New(257, 0)),
    On(40, Accepted, Wish),
];

// Over a publishing carrier after these, with acknowledgment after expiry not necessary.
pub(crate) fn held(steps: &[Step]) -> Option<Step> {
    goes(Publishing::new(), false, &HELD, steps)
}
