use message::flags::{RequestFlags, ResponseFlags};
use message::making::Settings;
use message::parameters::{BaseId, Parameters};
use message::request::Request;
use message::response::{LONGEST, Response};
use record::meter::Meter;

pub const READING: Meter = Meter {
    pulses: 70_000,
    centidegrees: -5,
    valid: true,
};

const CONSUMER: u32 = 7;

const NUMBER: u32 = 256;

fn parameters() -> Parameters {
    let settings = Settings {
        consumer_id: CONSUMER,
        provider_id: 1,
        base_id: BaseId::new(0x7296_2B91, 0x4AE6_FA75, 0x04B4_288D, 0x63AF_7DDC),
        level: 3,
        timeout: 50,
        error_interval: 6,
        operator_ack_necessary: true,
    };
    Parameters::new(settings).unwrap()
}

// The request for a reading.
pub fn request() -> [u8; 9] {
    let request = Request {
        consumer_id: CONSUMER,
        monitoring_number: NUMBER,
        flags: RequestFlags::default(),
    };
    request.octets()
}

// The response with the reading to that request.
pub fn response() -> [u8; 32] {
    let response = Response {
        safety_data: READING,
        flags: ResponseFlags::default(),
        consumer_id: CONSUMER,
        monitoring_number: NUMBER,
    };
    let mut buffer = [0; LONGEST];
    let end = response.build(&parameters(), &mut buffer).unwrap();
    buffer[0..end].try_into().unwrap()
}
