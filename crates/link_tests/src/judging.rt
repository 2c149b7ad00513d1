// Strangers' messages on the down lane while a request stands: the fault that each of them has, and which are ignored.
use crate::bench::publishes;
use crate::common::{built, cycled, flip, link_over, meter, sign};
use crate::steps::Heard::*;
use crate::steps::Sight::*;
use crate::steps::Step::{self, *};
use crate::steps::Told::*;
use carrier::Carrier;
use carrier::lane::Lane;
use carrier::publishing::Publishing;
use consumer::event::Event;
use consumer::fault::CycleFault;
use message::fault::MessageFault;
use message::response::LONGEST;
use record::draw::Draw;
use record::fault::Layer::{self, *};
use record::kind::RecordKind;

// A fault's number, its place and its layer, and the place inside the record's own fault, if it is one.
type Signs = (u8, usize, Layer, Option<usize>);

fn signs(fault: CycleFault) -> Signs {
    let inside = match fault {
        CycleFault::Message(MessageFault::Record(inner)) => Some(inner.place()),
        _ => None,
    };
    (fault.number(), fault.place(), fault.layer(), inside)
}

// The fault of so many octets that begin with the response to request 256, some of them turned and then signed or not.
fn fault_of<K: RecordKind>(
    given: K,
    length: usize,
    places: &[usize],
    again: bool,
) -> Option<Signs> {
    let mut buffer = [1; LONGEST];
    if built(given, 256, &mut buffer).is_empty() {
        return None;
    }
    let message = buffer.get_mut(..length)?;
    flip(message, places);
    if again {
        sign(message);
    }
    let mut link = link_over::<K, Publishing>(Publishing::new(), true);
    cycled(&mut link, 0)?;
    link.place(Lane::Down, message).ok()?;
    match cycled(&mut link, 1)?.event {
        Event::Fault(fault) => Some(signs(fault)),
        _ => None,
    }
}

// A length, where to turn octets, whether to sign again, and the fault, of a meter response.
const METERS: [(usize, &[usize], bool, Signs); 19] = [
    (1, &[], true, (21, 0, Message, None)),
    (31, &[], true, (21, 0, Message, None)),
    (33, &[], true, (21, 0, Message, None)),
    (LONGEST, &[], true, (21, 0, Message, None)),
    (32, &[0], false, (21, 28, Message, None)),
    (32, &[24], false, (21, 28, Message, None)),
    (32, &[28], false, (21, 28, Message, None)),
    (32, &[31], false, (21, 28, Message, None)),
    (32, &[8], true, (22, 8, Message, None)),
    (32, &[11, 12], true, (22, 8, Message, None)),
    (32, &[12], true, (22, 12, Message, None)),
    (32, &[15, 16], true, (22, 12, Message, None)),
    (32, &[16], true, (22, 16, Message, None)),
    (32, &[19, 20], true, (22, 16, Message, None)),
    (32, &[20], true, (23, 20, Message, None)),
    (32, &[23, 24], true, (23, 20, Message, None)),
    (32, &[24], true, (24, 24, Cycle, None)),
    (32, &[27, 6], true, (24, 24, Cycle, None)),
    (32, &[6], true, (25, 6, Record, Some(6))),
];

#[test]
fn of_meters(rt: HostRuntime) {
    for (length, places, again, signs) in METERS {
        let fault = fault_of(meter(9), length, places, again);
        assert_eq!(rt; fault, Some(signs), "{length} {places:?} {again}");
    }
}

// A tag that stands for no case, an octet under the tag of a stop, and an infinite rate.
#[test]
fn of_draws(rt: HostRuntime) {
    for (given, at, place) in [
        (Draw::Stop, 0, 0),
        (Draw::Stop, 8, 1),
        (Draw::Run(1.0), 8, 1),
    ] {
        let fault = fault_of(given, 34, &[at], true);
        let signs = (25, place, Record, Some(place));
        assert_eq!(rt; fault, Some(signs), "{given:?} {at}");
    }
}

// The last accepted number, over a good and a bad record, and zeros. None of them is a fault: request 258 tells of no error.
const IGNORED_ALL: [Step; 13] = [
    On(0, Started, Blank),
    Serve(11, 0, New(256, 4)),
    On(1, Accepted, Values(11)),
    On(2, Ignored, Values(11)),
    Down(256, Some(6)),
    On(3, Ignored, Values(11)),
    Zeros(1),
    On(4, Ignored, Values(11)),
    Zeros(32),
    On(5, Ignored, Values(11)),
    Serve(12, 0, New(257, 0)),
    On(6, Accepted, Values(12)),
    Serve(13, 0, New(258, 0)),
];

// An accepted number that is not the last, and foreign numbers over a bad record.
const FOREIGN: [Step; 11] = [
    On(0, Started, Blank),
    Down(999, Some(6)),
    On(1, Fault(24), Blank),
    Serve(11, 0, New(256, 4)),
    On(2, Accepted, Values(11)),
    Serve(12, 0, New(257, 1)),
    On(3, Accepted, Values(12)),
    Down(256, None),
    On(4, Fault(24), Blank),
    Down(258, Some(6)),
    On(5, Fault(25), Blank),
];

#[test]
fn ignored(rt: HostRuntime) {
    assert_eq!(rt; publishes(true, &IGNORED_ALL), None);
    assert_eq!(rt; publishes(true, &FOREIGN), None);
}
