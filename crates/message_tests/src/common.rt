// What the tests share: parameters, a response, and ways to change and to sign its octets.
use message::flags::ResponseFlags;
use message::parameters::{BaseId, Parameters};
use message::response::Response;
use record::fault::{Layer, RecordCause, RecordFault};
use record::kind::RecordKind;
use record::meter::Meter;
use signature::signature;

pub(crate) const METER: Meter = Meter {
    pulses: 123_456,
    centidegrees: -1,
    valid: true,
};

// Octets that are no meter record, why, and where.
pub(crate) const BAD_METERS: [([u8; 7], RecordCause, usize); 2] = [
    ([0, 0, 0, 0, 0, 0, 2], RecordCause::Boolean, 6),
    ([9, 9, 9, 9, 9, 9, 255], RecordCause::Boolean, 6),
];

// The same of draw records: tags, infinities, what is no number, and octets under the tag of a stop.
pub(crate) const BAD_DRAWS: [([u8; 9], RecordCause, usize); 9] = [
    ([3, 0, 0, 0, 0, 0, 0, 0, 0], RecordCause::Tag, 0),
    ([255, 0, 0, 0, 0, 0, 0xF0, 0x7F, 0], RecordCause::Tag, 0),
    ([1, 0, 0, 0, 0, 0, 0, 0xF0, 0x7F], RecordCause::NotFinite, 1),
    ([2, 0, 0, 0, 0, 0, 0, 0xF0, 0xFF], RecordCause::NotFinite, 1),
    ([1, 1, 0, 0, 0, 0, 0, 0xF0, 0x7F], RecordCause::NotFinite, 1),
    ([2, 0, 0, 0, 0, 0, 0, 0xF8, 0x7F], RecordCause::NotFinite, 1),
    (
        [2, 255, 255, 255, 255, 255, 255, 255, 255],
        RecordCause::NotFinite,
        1,
    ),
    ([0, 1, 0, 0, 0, 0, 0, 0, 0], RecordCause::NotZero, 1),
    ([0, 0, 0, 0, 0, 0, 0, 0, 0x80], RecordCause::NotZero, 1),
];

pub(crate) fn parameters() -> Parameters {
    Parameters {
        consumer_id: 0xA1B2_C3D4,
        provider_id: 0x1122_3344,
        base_id: BaseId::new(0x0123_4567, 0x89AB_CDEF, 0x0F1E_2D3C, 0x4B5A_6978),
        level: 3,
        timeout: 250,
        error_interval: 60,
        operator_ack_necessary: true,
    }
}

// A response to the consumer of the parameters.
pub(crate) fn response<K: RecordKind>(safety_data: K) -> Response<K> {
    Response {
        safety_data,
        flags: ResponseFlags {
            operator_ack_provider: true,
            activate_fsv: false,
            test_mode_activated: true,
        },
        consumer_id: 0xA1B2_C3D4,
        monitoring_number: 0xFFFF_FFFF,
    }
}

// Are the octets no record of the kind, for this fault?
pub(crate) fn refuses<K: RecordKind>(octets: &[u8], fault: RecordFault) -> bool {
    K::decode(octets).err() == Some(fault)
        && (fault.number(), fault.layer(), fault.place()) == (25, Layer::Record, fault.place)
}

// BLANK, `built`, `flip`, `sign` and `is_blank` stand in other tests too: a crate of them, with clauses, proofs
// and edits, is longer. Parameters and records are inputs, each crate's own.

// What stands in a buffer before it is lent.
pub(crate) const BLANK: u8 = 0xA5;

// The response as it is built at the start of a buffer; no octet, if it is not built.
pub(crate) fn built<'a, K: RecordKind>(given: K, buffer: &'a mut [u8]) -> &'a mut [u8] {
    let end = response(given).build(&parameters(), buffer).unwrap_or(0);
    &mut buffer[..end]
}

// Turns a bit of each octet at one of these places.
pub(crate) fn flip(octets: &mut [u8], places: &[usize]) {
    for place in places {
        if let Some(octet) = octets.get_mut(*place) {
            *octet ^= 0x40;
        }
    }
}

// Makes the last four octets the signature of those before.
pub(crate) fn sign(message: &mut [u8]) {
    if let Some((before, last)) = message.split_last_chunk_mut() {
        *last = signature(before).to_le_bytes();
    }
}

// Was nothing written to the octets?
pub(crate) fn is_blank(octets: &[u8]) -> bool {
    octets.iter().all(|octet| *octet == BLANK)
}
