// Responses as they are built, and what is not built.
use crate::common::{BLANK, METER, built, is_blank, parameters, response};
use message::response::LONGEST;
use record::draw::Draw;
use record::kind::RecordKind;

// A row each, here and below: the record, the flags, the three identity numbers, consumer number, monitoring number, signature.
#[rattlefmt::skip]
const METER_SENT: [u8; 32] = [
    0x40, 0xE2, 0x01, 0x00, 0xFF, 0xFF, 0x01,
    0x05,
    0x89, 0xD8, 0x89, 0xDF,
    0xBD, 0x99, 0xEE, 0xC4,
    0x00, 0x77, 0x66, 0x55,
    0xD4, 0xC3, 0xB2, 0xA1,
    0xFF, 0xFF, 0xFF, 0xFF,
    0x22, 0x86, 0x74, 0x9F,
];

#[rattlefmt::skip]
const DRAW_SENT: [u8; 34] = [
    0x01, 0x00, 0x00, 0x00, 0x00, 0x00, 0x00, 0x29, 0x40,
    0x05,
    0x89, 0xD8, 0x89, 0xDF,
    0xB8, 0x8C, 0xF9, 0xCD,
    0x00, 0x77, 0x66, 0x55,
    0xD4, 0xC3, 0xB2, 0xA1,
    0xFF, 0xFF, 0xFF, 0xFF,
    0xEB, 0x03, 0x2C, 0xF1,
];

// Is the response built as these octets, and what lies behind them left?
fn builds<K: RecordKind>(given: K, octets: &[u8]) -> bool {
    let mut buffer = [BLANK; LONGEST];
    &*built(given, &mut buffer) == octets && buffer.get(octets.len()..).is_some_and(is_blank)
}

#[test]
fn fields(rt: HostRuntime) {
    assert!(rt; builds(METER, &METER_SENT) && builds(Draw::Run(12.5), &DRAW_SENT));
}

// The number of the refusal to build in a buffer of so many octets, if it left them.
fn refusal<K: RecordKind>(given: K, room: usize) -> Option<u8> {
    let mut all = [BLANK; LONGEST];
    let buffer = all.get_mut(..room)?;
    let refusal = response(given).build(&parameters(), buffer).err()?;
    is_blank(buffer).then_some(refusal.number())
}

#[test]
fn refusals(rt: HostRuntime) {
    assert_eq!(rt; refusal(METER, 1524), Some(7));
    for (given, room, number) in [
        (Draw::Stop, 0, 7),
        (Draw::Stop, 1524, 7),
        (Draw::Run(f64::INFINITY), 1524, 7),
        (Draw::Run(f64::INFINITY), LONGEST, 8),
        (Draw::Run(f64::NAN), LONGEST, 8),
        (Draw::Preset(f64::NEG_INFINITY), LONGEST, 8),
    ] {
        assert_eq!(rt; refusal(given, room), Some(number), "{given:?} in {room}");
    }
}
