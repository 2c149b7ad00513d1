// The answers as they are printed.
use crate::alarm::Alarm;
use carrier::lane::{Lane, PlaceRefusal};
use consumer::event::{CycleAnswer, CycleRefusal, Event};
use consumer::fault::CycleFault;
use consumer::state::Shown;
use message::fault::MessageFault;
use message::flags::RequestFlags;
use message::request::Request;
use provider::answer::{ServeAnswer, ServeRefusal};
use record::draw::Draw;
use record::fault::{RecordCause, RecordFault};
use record::meter::Meter;
use script::kinds::Written;
use script::show::{CycleLine, PlaceLine, RecordText, Refused, ServeLine};
use std::alloc::Global;
use std::fmt::Display;
use std::process::Abort;
use std::test::Fail;

const READING: Meter = Meter {
    pulses: 70_000,
    centidegrees: -5,
    valid: true,
};

const SHOWN: Shown<Meter> = Shown {
    safety_data: READING,
    fsv_activated: false,
    operator_ack_requested: false,
    operator_ack_provider: true,
    test_mode_activated: false,
};

const EVENTS: [(Event, &str); 10] = [
    (Event::Disabled, "disabled"),
    (Event::Started, "started"),
    (Event::Expired, "expired"),
    (Event::Nothing, "none"),
    (Event::Ignored, "ignored"),
    (Event::Accepted, "accepted"),
    (
        Event::Fault(CycleFault::Message(MessageFault::Length)),
        "fault 21 at 0",
    ),
    (
        Event::Fault(CycleFault::Message(MessageFault::Identity { place: 16 })),
        "fault 22 at 16",
    ),
    (
        Event::Fault(CycleFault::Number { place: 24 }),
        "fault 24 at 24",
    ),
    (
        Event::Fault(CycleFault::Message(MessageFault::Record(RecordFault {
            cause: RecordCause::Boolean,
            place: 6,
        }))),
        "fault 25 at 6",
    ),
];

fn check_line(
    rt: &impl Abort,
    heap: Global,
    line: impl Display + Drop,
    expected: &str,
) -> Result<(), Fail> {
    let printed = format!(in heap; "{line}")?;
    assert!(rt; printed.as_str() == expected, "{}", expected);
    Ok(())
}

#[test]
fn events(rt: HostRuntime) -> Result<(), Fail> {
    for (event, name) in EVENTS {
        let line = CycleLine {
            reading: u64::MAX,
            answer: Ok(CycleAnswer {
                shown: SHOWN,
                event,
            }),
        };
        let expected = format!(in rt.alloc();
            "cycle 18446744073709551615: process 70000 -5 valid wish=off ack-provider=on test-mode=off event={name}"
        )?;
        check_line(&rt, rt.alloc(), line, expected.as_str())?;
    }
    Ok(())
}

fn accepted<K: Written>(shown: Shown<K>) -> CycleLine<K> {
    CycleLine {
        reading: 0,
        answer: Ok(CycleAnswer {
            shown,
            event: Event::Accepted,
        }),
    }
}

#[test]
fn cycles(rt: HostRuntime) -> Result<(), Fail> {
    check_line(
        &rt,
        rt.alloc(),
        accepted(Shown {
            safety_data: Draw::Stop,
            fsv_activated: true,
            operator_ack_requested: true,
            operator_ack_provider: false,
            test_mode_activated: true,
        }),
        "cycle 0: substitutes stop wish=on ack-provider=off test-mode=on event=accepted",
    )?;
    check_line(
        &rt,
        rt.alloc(),
        accepted(Shown {
            safety_data: Meter {
                pulses: u32::MAX,
                centidegrees: i16::MIN,
                valid: false,
            },
            fsv_activated: false,
            operator_ack_requested: false,
            operator_ack_provider: false,
            test_mode_activated: false,
        }),
        "cycle 0: process 4294967295 -32768 invalid wish=off ack-provider=off test-mode=off event=accepted",
    )?;
    let refused: CycleLine<Meter> = CycleLine {
        reading: 10,
        answer: Err(CycleRefusal::ShortBuffer),
    };
    check_line(&rt, rt.alloc(), refused, "cycle 10: refused 7")
}

#[test]
fn another_kind(rt: HostRuntime) -> Result<(), Fail> {
    let off = Alarm { on: false };
    check_line(&rt, rt.alloc(), RecordText(&off), "alarm off")?;
    check_line(
        &rt,
        rt.alloc(),
        accepted(Shown {
            safety_data: Alarm { on: true },
            fsv_activated: false,
            operator_ack_requested: true,
            operator_ack_provider: false,
            test_mode_activated: false,
        }),
        "cycle 0: process alarm on wish=on ack-provider=off test-mode=off event=accepted",
    )
}

const REQUEST: Request = Request {
    consumer_id: u32::MAX,
    monitoring_number: 256,
    flags: RequestFlags {
        communication_error: false,
        operator_ack_requested: true,
        fsv_activated: true,
    },
};

#[test]
fn serves(rt: HostRuntime) -> Result<(), Fail> {
    let sent = [0, 171, 15];
    for (answer, expected) in [
        (Ok(ServeAnswer::Idle), "serve: idle"),
        (
            Ok(ServeAnswer::New(REQUEST)),
            "serve: answered consumer=4294967295 number=256 flags=6 new sent=00ab0f",
        ),
        (
            Ok(ServeAnswer::Again(REQUEST)),
            "serve: answered consumer=4294967295 number=256 flags=6 again sent=00ab0f",
        ),
        (Err(ServeRefusal::ShortBuffer), "serve: refused 7"),
        (Err(ServeRefusal::UnsoundRecord), "serve: refused 8"),
        (Err(ServeRefusal::Full), "serve: refused 10"),
        (Err(ServeRefusal::NotARequest), "serve: refused 11"),
    ] {
        let line = ServeLine {
            answer,
            sent: &sent,
        };
        check_line(&rt, rt.alloc(), line, expected)?;
    }
    Ok(())
}

#[test]
fn places(rt: HostRuntime) -> Result<(), Fail> {
    for (lane, answer, expected) in [
        (Lane::Up, Ok(()), "place up: taken"),
        (Lane::Down, Ok(()), "place down: taken"),
        (Lane::Up, Err(PlaceRefusal::Length), "place up: refused 9"),
        (
            Lane::Down,
            Err(PlaceRefusal::Full),
            "place down: refused 10",
        ),
    ] {
        check_line(&rt, rt.alloc(), PlaceLine { lane, answer }, expected)?;
    }
    let refused = Refused {
        name: "link",
        number: 4,
    };
    check_line(&rt, rt.alloc(), refused, "link: refused 4")
}
