// Records at their limits, octets of a wrong number, and records that are not written.
use crate::common::{BLANK, METER, is_blank, refuses};
use record::draw::Draw;
use record::fault::{RecordCause, RecordFault};
use record::kind::RecordKind;
use record::meter::Meter;
use record::round_trip::reread;

const METERS: [(u32, i16, bool, [u8; 7]); 4] = [
    (0, -32_768, false, [0, 0, 0, 0, 0, 0x80, 0]),
    (0, -1, true, [0, 0, 0, 0, 0xFF, 0xFF, 1]),
    (
        4_294_967_295,
        32_767,
        true,
        [0xFF, 0xFF, 0xFF, 0xFF, 0xFF, 0x7F, 1],
    ),
    (0x0403_0201, 0x0605, false, [1, 2, 3, 4, 5, 6, 0]),
];

const DRAWS: [(Draw, [u8; 9]); 5] = [
    (Draw::Stop, [0, 0, 0, 0, 0, 0, 0, 0, 0]),
    (Draw::Run(0.0), [1, 0, 0, 0, 0, 0, 0, 0, 0]),
    (Draw::Run(-0.0), [1, 0, 0, 0, 0, 0, 0, 0, 0x80]),
    (
        Draw::Run(f64::MAX),
        [1, 255, 255, 255, 255, 255, 255, 0xEF, 0x7F],
    ),
    (Draw::Preset(5e-324), [2, 1, 0, 0, 0, 0, 0, 0, 0]),
];

// Does the record have these octets, and what comes back of it the same? Compared as values the two zeros are equal.
fn comes_back<K: RecordKind>(given: K, octets: &[u8]) -> bool {
    let mut out = [BLANK; 9];
    let mut again = [BLANK; 9];
    let Ok(read) = reread(given, &mut out) else {
        return false;
    };
    read.encode(&mut again).is_ok() && out.starts_with(octets) && again == out
}

#[test]
fn limits(rt: HostRuntime) {
    for (pulses, centidegrees, valid, octets) in METERS {
        let given = Meter {
            pulses,
            centidegrees,
            valid,
        };
        assert!(rt; comes_back(given, &octets), "{given:?}");
    }
    for (given, octets) in DRAWS {
        assert!(rt; comes_back(given, &octets), "{given:?}");
    }
}

#[test]
fn numbers_of_octets(rt: HostRuntime) {
    let zeros = [0; 16];
    let fault = RecordFault {
        cause: RecordCause::Length,
        place: 0,
    };
    for length in 0..17 {
        let octets = &zeros[..length];
        assert_eq!(rt; refuses::<Meter>(octets, fault), length != 7, "{length}");
        assert_eq!(rt; refuses::<Draw>(octets, fault), length != 9, "{length}");
    }
}

// Is the record refused by this number, and a slice of so many octets left?
fn is_refused<K: RecordKind>(given: K, room: usize, number: Option<u8>) -> bool {
    let mut all = [BLANK; 9];
    let Some(out) = all.get_mut(..room) else {
        return false;
    };
    let told = given.encode(out).err().map(|refusal| refusal.number());
    told == Some(number) && is_blank(out)
}

#[test]
fn not_written(rt: HostRuntime) {
    assert!(rt; is_refused(METER, 6, None));
    for (given, room, number) in [
        (Draw::Stop, 0, None),
        (Draw::Stop, 8, None),
        (Draw::Run(f64::INFINITY), 8, None),
        (Draw::Run(f64::INFINITY), 9, Some(8)),
        (Draw::Run(f64::NAN), 9, Some(8)),
        (Draw::Preset(f64::NEG_INFINITY), 9, Some(8)),
    ] {
        assert!(rt; is_refused(given, room, number), "{given:?} in {room}");
    }
}
