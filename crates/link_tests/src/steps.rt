// Steps of a link, and what each of them tells.
use crate::common::meter;
use consumer::event::Event;
use consumer::state::Shown;
use provider::answer::{ServeAnswer, ServeRefusal};
use record::kind::RecordKind;
use record::meter::Meter;

// A step by its name: steps are rows of constants, and a constant holds no closure.
#[derive(Clone, Copy, Debug, PartialEq)]
pub(crate) enum Step {
    // An enabled cycle with the acknowledgment input off: its reading, its event and what it shows.
    On(u64, Heard, Sight),
    // The same with the input on.
    Ack(u64, Heard, Sight),
    // A cycle with enable off, which blanks.
    Off(u64),
    // A serve: the pulses and flags given, and what it tells.
    Serve(u32, u8, Told),
    // A cycle with the input on and a serve, both refused for a buffer that lacks an octet.
    Short(u64),
    // So many octets of the stranger's request on the up lane.
    Up(usize),
    // A stranger's response with this number on the down lane: an octet turned, if one is named, and then signed.
    Down(u32, Option<usize>),
    // So many zeros of a stranger on the down lane.
    Zeros(usize),
}

// The event of a cycle, a fault by its number: a row of constants names a fault as the rules of the link do.
#[derive(Clone, Copy, Debug, PartialEq)]
pub(crate) enum Heard {
    Disabled,
    Started,
    Expired,
    Nothing,
    Ignored,
    Accepted,
    Fault(u8),
}

impl From<Event> for Heard {
    fn from(event: Event) -> Heard {
        match event {
            Event::Disabled => Heard::Disabled,
            Event::Started => Heard::Started,
            Event::Expired => Heard::Expired,
            Event::Nothing => Heard::Nothing,
            Event::Ignored => Heard::Ignored,
            Event::Accepted => Heard::Accepted,
            Event::Fault(fault) => Heard::Fault(fault.number()),
        }
    }
}

// What a serve tells: number and flags of the request that it answers, or its refusal by number, as the rules name it.
#[derive(Clone, Copy, Debug, PartialEq)]
pub(crate) enum Told {
    Idle,
    New(u32, u8),
    Again(u32, u8),
    Refused(u8),
}

impl From<Result<ServeAnswer, ServeRefusal>> for Told {
    fn from(answer: Result<ServeAnswer, ServeRefusal>) -> Told {
        match answer {
            Ok(ServeAnswer::Idle) => Told::Idle,
            Ok(ServeAnswer::New(q)) => Told::New(q.monitoring_number, u8::from(q.flags)),
            Ok(ServeAnswer::Again(q)) => Told::Again(q.monitoring_number, u8::from(q.flags)),
            Err(refusal) => Told::Refused(refusal.number()),
        }
    }
}

// What a cycle shows.
#[derive(Clone, Copy, Debug, PartialEq)]
pub(crate) enum Sight {
    // substitutes
    Blank,
    // substitutes, and the wish for an acknowledgment
    Wish,
    // the same, and both flags that are copied
    WishAndFlags,
    // process values: a record of so many pulses
    Values(u32),
    // the same in test mode
    ValuesInTest(u32),
    // the same with an operator's acknowledgment passed on
    ValuesAcknowledged(u32),
}

impl Sight {
    pub(crate) fn shown(self) -> Shown<Meter> {
        let (pulses, wish, acknowledged, test) = match self {
            Sight::Blank => (None, false, false, false),
            Sight::Wish => (None, true, false, false),
            Sight::WishAndFlags => (None, true, true, true),
            Sight::Values(n) => (Some(n), false, false, false),
            Sight::ValuesInTest(n) => (Some(n), false, false, true),
            Sight::ValuesAcknowledged(n) => (Some(n), false, true, false),
        };
        Shown {
            safety_data: pulses.map_or(Meter::substitute(), meter),
            fsv_activated: pulses.is_none(),
            operator_ack_requested: wish,
            operator_ack_provider: acknowledged,
            test_mode_activated: test,
        }
    }
}
