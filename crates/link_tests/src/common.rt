// What the tests share: parameters, links, a record, and messages as strangers make them.
use carrier::Carrier;
use consumer::event::CycleAnswer;
use consumer::inputs::Inputs;
use consumer::start::StartNumber;
use link::link::Link;
use message::flags::ResponseFlags;
use message::parameters::{BaseId, Parameters};
use message::response::{LONGEST, Response};
use provider::answer::{ServeAnswer, ServeRefusal};
use record::kind::RecordKind;
use record::meter::Meter;
use signature::signature;

// A request may wait for 400,000 milliseconds, and a fault counts as repeated for 360,000.
pub(crate) fn parameters(operator_ack_necessary: bool) -> Parameters {
    Parameters {
        consumer_id: 0xA1B2_C3D4,
        provider_id: 0x1122_3344,
        base_id: BaseId::new(0x0123_4567, 0x89AB_CDEF, 0x0F1E_2D3C, 0x4B5A_6978),
        level: 3,
        timeout: 400_000,
        error_interval: 6,
        operator_ack_necessary,
    }
}

// A link whose first request has number 256, with acknowledgment after an expiry necessary or not.
pub(crate) fn link_over<K: RecordKind, C: Carrier + Drop>(
    carrier: C,
    necessary: bool,
) -> Link<K, C> {
    let start = StartNumber::new(256).unwrap();
    Link::new(parameters(necessary), start, carrier)
}

// An enabled cycle.
pub(crate) fn on(reading: u64, ack: bool) -> Inputs {
    Inputs {
        reading,
        enable: true,
        ack,
    }
}

// What an enabled cycle answers.
pub(crate) fn cycled<K: RecordKind, C: Carrier>(
    link: &mut Link<K, C>,
    reading: u64,
) -> Option<CycleAnswer<K>> {
    link.cycle(on(reading, false), &mut [0; LONGEST]).ok()
}

// What a serve with these flags answers.
pub(crate) fn served<K: RecordKind, C: Carrier>(
    link: &mut Link<K, C>,
    given: K,
    flags: u8,
    buffer: &mut [u8],
) -> Result<ServeAnswer, ServeRefusal> {
    link.serve(given, ResponseFlags::from(flags), buffer)
}

pub(crate) fn meter(pulses: u32) -> Meter {
    Meter {
        pulses,
        centidegrees: -1,
        valid: true,
    }
}

// BLANK, `built`, `flip`, `sign` and `is_left` (there `is_blank`) stand in other tests too: a crate of them, with clauses,
// proofs and edits, is longer. Parameters and records are inputs, each crate's own.

// What stands in a buffer before it is lent.
pub(crate) const BLANK: u8 = 0xA5;

// A response to the consumer with this number, built at the start of a buffer; no octet, if it is not built.
pub(crate) fn built<'a, K: RecordKind>(
    given: K,
    monitoring_number: u32,
    buffer: &'a mut [u8],
) -> &'a mut [u8] {
    let response = Response {
        safety_data: given,
        flags: ResponseFlags::default(),
        consumer_id: 0xA1B2_C3D4,
        monitoring_number,
    };
    let end = response.build(&parameters(true), buffer).unwrap_or(0);
    &mut buffer[..end]
}

// Turns a bit of each octet at one of these places.
pub(crate) fn flip(octets: &mut [u8], places: &[usize]) {
    for place in places {
        if let Some(octet) = octets.get_mut(*place) {
            *octet ^= 0x40;
        }
    }
}

// Makes the last four octets the signature of those before.
pub(crate) fn sign(message: &mut [u8]) {
    if let Some((before, last)) = message.split_last_chunk_mut() {
        *last = signature(before).to_le_bytes();
    }
}

// Was nothing written from this place on?
pub(crate) fn is_left(octets: &[u8], from: usize) -> bool {
    octets.iter().skip(from).all(|octet| *octet == BLANK)
}
