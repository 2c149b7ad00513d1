// What is refused, and what stands then.
use crate::bench::{calls, publishes};
use crate::common::{BLANK, cycled, is_left, link_over, served};
use crate::steps::Heard::*;
use crate::steps::Sight::*;
use crate::steps::Step::{self, *};
use crate::steps::Told::{self, *};
use calling::Calling;
use calling::memory::SLOT;
use carrier::Carrier;
use carrier::publishing::Publishing;
use consumer::start::StartNumber;
use link::link::Link;
use message::response::LONGEST;
use record::draw::Draw;

#[test]
fn start_numbers(rt: HostRuntime) {
    assert!(rt; StartNumber::new(256).is_ok());
    for low in [0, 255] {
        let refusal = StartNumber::new(low).err();
        assert_eq!(rt; refusal.map(|refusal| refusal.number()), Some(4), "{low}");
    }
}

// Requests and responses stay on their lanes, and a reading that was refused is no time.
const SHORT: [Step; 9] = [
    Short(5_000),
    On(1_000, Started, Blank),
    Short(2_000),
    Serve(11, 0, New(256, 4)),
    Short(900_000),
    On(1_010, Accepted, Values(11)),
    Short(1_020),
    Serve(12, 0, New(257, 0)),
    On(1_015, Accepted, Values(12)),
];

#[test]
fn short_buffers(rt: HostRuntime) {
    assert_eq!(rt; publishes(true, &SHORT), None);
    assert_eq!(rt; calls(&SHORT), None);
}

// The first serve finds the lane full: its response is built, and remembered for when the request comes again.
const FULL_DOWN: [Step; 8] = [
    Zeros(32),
    On(0, Started, Blank),
    Serve(11, 4, Refused(10)),
    Serve(12, 0, Idle),
    On(1, Ignored, Blank),
    Up(9),
    Serve(13, 0, Again(256, 5)),
    On(2, Accepted, ValuesInTest(11)),
];

// Request 257 finds the lane full and is lost; it stands all the same, and expires.
const FULL_UP: [Step; 9] = [
    On(0, Started, Blank),
    On(400_001, Expired, Blank),
    Serve(11, 0, New(256, 4)),
    Serve(12, 0, Idle),
    On(400_002, Fault(24), Blank),
    On(800_001, Nothing, Blank),
    On(800_002, Expired, Blank),
    Serve(12, 0, New(258, 5)),
    On(800_003, Accepted, Wish),
];

#[test]
fn full_lanes(rt: HostRuntime) {
    assert_eq!(rt; calls(&FULL_DOWN), None);
    assert_eq!(rt; calls(&FULL_UP), None);
}

// Eight octets are no request: they were fetched, and the response to request 256 is still on its way.
const FETCHED: [Step; 6] = [
    On(0, Started, Blank),
    Serve(11, 0, New(256, 4)),
    Up(8),
    Serve(12, 0, Refused(11)),
    Serve(13, 0, Idle),
    On(1, Accepted, Values(11)),
];

// The remembered answer is kept.
const KEPT: [Step; 6] = [
    Up(9),
    Serve(11, 0, New(256, 5)),
    Up(8),
    Serve(12, 0, Refused(11)),
    Up(9),
    Serve(13, 0, Again(256, 5)),
];

#[test]
fn not_requests(rt: HostRuntime) {
    assert_eq!(rt; calls(&FETCHED), None);
    assert_eq!(rt; publishes(true, &KEPT), None);
}

// Does a serve of this record, in a buffer of so many octets, tell this, and leave the buffer where it is refused?
fn serves<C: Carrier>(link: &mut Link<Draw, C>, given: Draw, room: usize, told: Told) -> bool {
    let mut all = [BLANK; LONGEST];
    let Some(buffer) = all.get_mut(..room) else {
        return false;
    };
    let answer = served(link, given, 0, buffer);
    Told::from(answer) == told && (answer.is_ok() || is_left(buffer, 0))
}

// An unsound record is refused before and after a sound one; the serve after that tells this. The answer is the record that
// is shown then, none where a cycle is refused, or the first serve that tells something else.
fn refuses_unsound<C: Carrier + Drop>(
    carrier: C,
    last: Told,
) -> Result<Option<Draw>, (Draw, usize, Told)> {
    let mut link = link_over::<Draw, C>(carrier, true);
    if cycled(&mut link, 0).is_none() {
        return Ok(None);
    }
    for (given, room, told) in [
        (Draw::Run(f64::NAN), 1524, Refused(7)),
        (Draw::Run(f64::NAN), LONGEST, Refused(8)),
        (Draw::Run(12.5), LONGEST, New(256, 4)),
        (Draw::Preset(f64::INFINITY), LONGEST, Refused(8)),
        (Draw::Preset(1.5), LONGEST, last),
    ] {
        if !serves(&mut link, given, room, told) {
            return Err((given, room, told));
        }
    }
    Ok(cycled(&mut link, 1).map(|answer| answer.shown.safety_data))
}

// Over the calling carrier the request was not fetched by the refused serve; over the publishing one it comes again.
#[test]
fn unsound_records(rt: HostRuntime) {
    let mut up_memory = [0; SLOT];
    let mut down_memory = [0; SLOT];
    let called = refuses_unsound(Calling::new(&mut up_memory, &mut down_memory), Idle);
    assert_eq!(rt; called, Ok(Some(Draw::Run(12.5))));
    let published = refuses_unsound(Publishing::new(), Again(256, 4));
    assert_eq!(rt; published, Ok(Some(Draw::Run(12.5))));
}
