// What a serve tells and sends, and the numbers of requests.
use crate::bench::publishes;
use crate::common::{cycled, link_over, meter, parameters, served};
use crate::serving::Reply::*;
use crate::steps::Heard::*;
use crate::steps::Sight::*;
use crate::steps::Step::{self, *};
use crate::steps::Told::*;
use carrier::lane::Lane;
use carrier::publishing::Publishing;
use consumer::start::StartNumber;
use link::link::Link;
use message::response::LONGEST;
use provider::answer::ServeAnswer;
use record::meter::Meter;
use std::test::Fail;

// A request that comes again is answered with the first record and flags; a refused serve changes nothing of that.
const AGAIN_AND_NEW: [Step; 12] = [
    Serve(10, 0, Idle),
    On(0, Started, Blank),
    Serve(11, 4, New(256, 4)),
    Short(1),
    Serve(12, 0, Again(256, 4)),
    Serve(13, 1, Again(256, 4)),
    On(2, Accepted, ValuesInTest(11)),
    Serve(14, 1, New(257, 0)),
    On(3, Accepted, ValuesAcknowledged(14)),
    Serve(15, 2, New(258, 0)),
    On(4, Accepted, Blank),
    Serve(16, 0, New(259, 4)),
];

#[test]
fn again_and_new(rt: HostRuntime) {
    assert_eq!(rt; publishes(true, &AGAIN_AND_NEW), None);
}

// The octets of a request that is answered.
#[derive(Clone, Copy, Debug, PartialEq)]
enum Reply {
    Fresh([u8; 9]),
    Repeated([u8; 9]),
}

fn answered(link: &mut Link<Meter, Publishing>) -> Option<Reply> {
    match served(link, meter(11), 0, &mut [0; LONGEST]).ok()? {
        ServeAnswer::Idle => None,
        ServeAnswer::New(request) => Some(Fresh(request.octets())),
        ServeAnswer::Again(request) => Some(Repeated(request.octets())),
    }
}

// Strangers' requests one after the other: consumer number, monitoring number, flags.
const STRANGE: [Reply; 6] = [
    Fresh([1, 2, 3, 4, 5, 6, 7, 8, 3]),
    Repeated([1, 2, 3, 4, 5, 6, 7, 8, 6]),
    Fresh([1, 2, 3, 9, 5, 6, 7, 8, 6]),
    Fresh([1, 2, 3, 9, 5, 6, 7, 9, 5]),
    Fresh([1, 2, 3, 4, 5, 6, 7, 8, 0]),
    Fresh([0, 0, 0, 0, 0, 0, 0, 0, 0]),
];

#[test]
fn fields(rt: HostRuntime) {
    let mut link = link_over::<Meter, Publishing>(Publishing::new(), true);
    for row in STRANGE {
        let (Fresh(octets) | Repeated(octets)) = row;
        assert!(rt; link.place(Lane::Up, &octets).is_ok(), "{octets:?}");
        assert_eq!(rt; answered(&mut link), Some(row));
    }
}

// Requests from the highest number on.
const HIGHEST: [[u8; 9]; 3] = [
    [0xD4, 0xC3, 0xB2, 0xA1, 0xFF, 0xFF, 0xFF, 0xFF, 4],
    [0xD4, 0xC3, 0xB2, 0xA1, 0x00, 0x01, 0x00, 0x00, 0],
    [0xD4, 0xC3, 0xB2, 0xA1, 0x01, 0x01, 0x00, 0x00, 0],
];

#[test]
fn numbers_wrap(rt: HostRuntime) -> Result<(), Fail> {
    let start = StartNumber::new(4_294_967_295)?;
    let mut link = Link::new(parameters(true), start, Publishing::new());
    for octets in HIGHEST {
        assert!(rt; cycled(&mut link, 0).is_some());
        assert_eq!(rt; answered(&mut link), Some(Fresh(octets)));
    }
    Ok(())
}
