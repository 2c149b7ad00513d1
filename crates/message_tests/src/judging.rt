// Responses that were changed, and the fault that each of them has.
use crate::common::{BAD_DRAWS, BAD_METERS, METER, built, flip, parameters, refuses, sign};
use message::check::{check, read_record};
use message::fault::MessageFault;
use message::response::LONGEST;
use record::draw::Draw;
use record::fault::{Layer, RecordFault};
use record::kind::RecordKind;
use record::meter::Meter;
use std::test::Fail;

// Where to change octets, whether to sign again, and the fault's number and place. Places count from the end of the
// record.
const CASES: [(&[usize], bool, u8, u8); 18] = [
    (&[0], false, 21, 21),
    (&[1], false, 21, 21),
    (&[20], false, 21, 21),
    (&[21], false, 21, 21),
    (&[24], false, 21, 21),
    (&[13, 21], false, 21, 21),
    (&[1], true, 22, 1),
    (&[4], true, 22, 1),
    (&[5], true, 22, 5),
    (&[8], true, 22, 5),
    (&[9], true, 22, 9),
    (&[12], true, 22, 9),
    (&[13], true, 23, 13),
    (&[16], true, 23, 13),
    (&[5, 1], true, 22, 1),
    (&[9, 5], true, 22, 5),
    (&[13, 9], true, 22, 9),
    (&[17, 13], true, 23, 13),
];

// What a fault tells: its number, its layer and its place.
fn told(fault: MessageFault) -> (u8, Layer, usize) {
    (fault.number(), fault.layer(), fault.place())
}

// What the fault tells for which a message fails its checks.
fn failure<K: RecordKind>(message: &[u8]) -> Option<(u8, Layer, usize)> {
    check::<K>(&parameters(), message).err().map(told)
}

fn changed<K: RecordKind>(given: K, places: &[usize], again: bool, number: u8, place: u8) -> bool {
    let mut buffer = [0; LONGEST];
    let message = built(given, &mut buffer);
    let size = K::LENGTH;
    if let Some(behind) = message.get_mut(size..) {
        flip(behind, places);
    }
    if again {
        sign(message);
    }
    failure::<K>(message) == Some((number, Layer::Message, size + usize::from(place)))
}

#[test]
fn fields(rt: HostRuntime) {
    for (places, again, number, place) in CASES {
        let meter = changed(METER, places, again, number, place);
        let draw = changed(Draw::Stop, places, again, number, place);
        assert!(rt; meter && draw, "{places:?} {again}: {meter} {draw}");
    }
}

// Do so many octets, signed again, fail for their number?
fn cut<K: RecordKind>(given: K, length: usize) -> bool {
    let mut buffer = [0; LONGEST];
    let whole = built(given, &mut buffer).len();
    let Some(message) = buffer.get_mut(..length) else {
        return false;
    };
    sign(message);
    length != whole
        && failure::<K>(message) == Some((21, Layer::Message, 0))
        && read_record::<K>(message).err() == Some(MessageFault::Length)
}

#[test]
fn lengths(rt: HostRuntime) {
    assert!(rt; cut(METER, 34) && cut(Draw::Stop, 32));
    for length in [0, 3, 25, 31, 33, 35, LONGEST] {
        assert!(rt; cut(METER, length) && cut(Draw::Stop, length), "{length}");
    }
}

// A bit of the flags that has no name is turned, and one of the monitoring number.
#[test]
fn flags_and_number(rt: HostRuntime) -> Result<(), Fail> {
    let mut buffer = [0; LONGEST];
    let message = built(METER, &mut buffer);
    flip(message, &[7, 24]);
    sign(message);
    let said = check::<Meter>(&parameters(), message)?;
    assert_eq!(rt; said.monitoring_number, 0xFFFF_FFBF);
    assert_eq!(rt; u8::from(said.flags), 5);
    Ok(())
}

// Does a response with these octets for its record, signed again, pass its checks and hold the record's own fault?
fn carries<K: RecordKind>(given: K, octets: &[u8], inner: RecordFault) -> bool {
    let mut buffer = [0; LONGEST];
    let message = built(given, &mut buffer);
    let Some(record) = message.get_mut(..octets.len()) else {
        return false;
    };
    record.copy_from_slice(octets);
    sign(message);
    let fault = MessageFault::Record(inner);
    check::<K>(&parameters(), message).is_ok()
        && read_record::<K>(message).err() == Some(fault)
        && told(fault) == (25, Layer::Record, inner.place)
}

#[test]
fn record_faults(rt: HostRuntime) {
    for (octets, cause, place) in BAD_METERS {
        let fault = RecordFault { cause, place };
        assert!(rt; refuses::<Meter>(&octets, fault), "{octets:?}");
        assert!(rt; carries(METER, &octets, fault), "{octets:?}");
    }
    for (octets, cause, place) in BAD_DRAWS {
        let fault = RecordFault { cause, place };
        assert!(rt; refuses::<Draw>(&octets, fault), "{octets:?}");
        assert!(rt; carries(Draw::Stop, &octets, fault), "{octets:?}");
    }
}
