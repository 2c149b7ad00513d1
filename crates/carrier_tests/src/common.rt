// What the tests share: messages, and what stands where none was written.
use carrier::lane::Lane;
use message::flags::ResponseFlags;
use message::parameters::{BaseId, Parameters};
use message::response::{LONGEST, Response};
use record::meter::Meter;
use std::array::from_fn;

// A message of its own for each lane and number; it is not sound.
pub(crate) fn numbered(lane: Lane, k: u8) -> [u8; 2] {
    [lane as u8, k]
}

// Octets that differ from their neighbours.
pub(crate) fn too_many() -> [u8; LONGEST + 1] {
    from_fn(|k| ((k % 256 * 7 + 1) % 256) as u8)
}

// A sound message of its own for each number.
pub(crate) fn signed(number: u32) -> [u8; 32] {
    let parameters = Parameters {
        consumer_id: 7,
        provider_id: 1,
        base_id: BaseId::new(1, 2, 3, 4),
        level: 3,
        timeout: 250,
        error_interval: 60,
        operator_ack_necessary: true,
    };
    let response = Response {
        safety_data: Meter {
            pulses: 70_000,
            centidegrees: -5,
            valid: true,
        },
        flags: ResponseFlags::default(),
        consumer_id: 7,
        monitoring_number: number,
    };
    let mut buffer = [0; LONGEST];
    response.build(&parameters, &mut buffer).unwrap();
    *buffer.first_chunk().unwrap()
}

// The message with the lowest bit of its last octet turned.
pub(crate) fn damaged(message: [u8; 32]) -> [u8; 32] {
    let mut other = message;
    other[31] ^= 1;
    other
}

// BLANK and `is_blank` stand in other tests too: a crate of them, with clauses, proofs and edits, is longer.
// Parameters and records are inputs, each crate's own.

// What stands in a buffer or a memory before it is lent.
pub(crate) const BLANK: u8 = 0xA5;

// Is every octet as it was before it was lent?
pub(crate) fn is_blank(octets: &[u8]) -> bool {
    octets.iter().all(|octet| *octet == BLANK)
}
