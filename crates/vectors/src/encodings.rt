use crate::identities::parameters;
use crate::tally::Tally;
use message::flags::{RequestFlags, ResponseFlags};
use message::parameters::BaseId;
use message::request::Request;
use message::response::{LONGEST, Response};
use record::draw::Draw;
use record::kind::RecordKind;
use record::meter::Meter;
use std::io;

fn meter(pulses: u32, centidegrees: i16, valid: bool) -> Meter {
    Meter {
        pulses,
        centidegrees,
        valid,
    }
}

// Encodes a record into as many octets as are expected, and compares.
fn encodes<K: RecordKind>(
    tally: &mut Tally,
    name: &str,
    given: K,
    expected: &[u8],
) -> io::Result<()> {
    let mut all = [0xFF; 16];
    let _ = given.encode(&mut all);
    let length = expected.len().min(16);
    tally.octets(name, expected, &all[0..length])
}

pub fn meters(tally: &mut Tally) -> io::Result<()> {
    let least = [0x00, 0x00, 0x00, 0x00, 0x00, 0x80, 0x00];
    let most = [0xFF, 0xFF, 0xFF, 0xFF, 0xFF, 0x7F, 0x01];
    let worked = [0x70, 0x11, 0x01, 0x00, 0xFB, 0xFF, 0x01];
    encodes(
        tally,
        "meter 0 -32768 not valid",
        meter(0, -32768, false),
        &least,
    )?;
    encodes(
        tally,
        "meter 4294967295 32767 valid",
        meter(u32::MAX, 32767, true),
        &most,
    )?;
    encodes(
        tally,
        "meter 70000 -5 valid",
        meter(70000, -5, true),
        &worked,
    )
}

pub fn draws(tally: &mut Tally) -> io::Result<()> {
    let one = [0x01, 0x00, 0x00, 0x00, 0x00, 0x00, 0x00, 0xF0, 0x3F];
    let minus_zero = [0x01, 0x00, 0x00, 0x00, 0x00, 0x00, 0x00, 0x00, 0x80];
    let largest = [0x02, 0xFF, 0xFF, 0xFF, 0xFF, 0xFF, 0xFF, 0xEF, 0x7F];
    let smallest = [0x02, 0x01, 0x00, 0x00, 0x00, 0x00, 0x00, 0x00, 0x00];
    encodes(tally, "draw stop", Draw::Stop, &[0; 9])?;
    encodes(tally, "draw run 1.0", Draw::Run(1.0), &one)?;
    encodes(tally, "draw run -0.0", Draw::Run(-0.0), &minus_zero)?;
    encodes(
        tally,
        "draw preset of the largest Double",
        Draw::Preset(f64::MAX),
        &largest,
    )?;
    encodes(
        tally,
        "draw preset of the smallest Double above 0",
        Draw::Preset(5e-324),
        &smallest,
    )
}

// A request and the response to it, with the fields worked out by hand and the signature by a stock tool.
pub fn messages(tally: &mut Tally) -> io::Result<()> {
    let request = Request {
        consumer_id: 7,
        monitoring_number: 256,
        flags: RequestFlags::from(5),
    };
    let asked = [0x07, 0x00, 0x00, 0x00, 0x00, 0x01, 0x00, 0x00, 0x05];
    tally.octets("request 256 of consumer 7", &asked, &request.octets())?;
    let base_id = BaseId::new(0x7296_2B91, 0x4AE6_FA75, 0x04B4_288D, 0x63AF_7DDC);
    let parameters = parameters(base_id, 1, 3);
    let response = Response {
        safety_data: meter(70000, -5, true),
        flags: ResponseFlags::from(5),
        consumer_id: 7,
        monitoring_number: 256,
    };
    let mut buffer = [0; LONGEST];
    let _ = response.build(&parameters, &mut buffer);
    tally.octets("response to it", &ANSWERED, &buffer[0..32])
}

// Record, flags, three identity numbers, consumer number, monitoring number, signature: a row each.
#[rattlefmt::skip]
const ANSWERED: [u8; 32] = [
    0x70, 0x11, 0x01, 0x00, 0xFB, 0xFF, 0x01,
    0x05,
    0x7F, 0xB6, 0x3C, 0xAC,
    0x27, 0xAE, 0xA3, 0x07,
    0x50, 0x55, 0x1B, 0x67,
    0x07, 0x00, 0x00, 0x00,
    0x00, 0x01, 0x00, 0x00,
    0x07, 0x43, 0x83, 0x25,
];
