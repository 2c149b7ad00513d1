use crate::exchange::Exchange;
use crate::layout;
use crate::layout::{LENGTH, SIGNED};
use crate::rows::{Row, show_rows};
use crate::value::Value;
use message::flags::ResponseFlags;
use message::identity::Identities;
use message::parameters::Parameters;
use message::request::Request;
use message::response::{LONGEST, Response};
use record::meter::Meter;
use record::round_trip::reread;
use signature::signature;
use std::io;

pub const READING: Meter = Meter {
    pulses: 70_000,
    centidegrees: -5,
    valid: true,
};

// The three fields of a record.
fn record_rows(reading: Meter) -> [Row; 3] {
    [
        Row {
            field: layout::PULSES,
            value: Value::Pulses(reading.pulses),
        },
        Row {
            field: layout::TEMPERATURE,
            value: Value::Centidegrees(reading.centidegrees),
        },
        Row {
            field: layout::VALID,
            value: Value::Truth(reading.valid),
        },
    ]
}

pub fn show_reading(rt: &HostRuntime) -> io::Result<()> {
    let mut octets = [0; 7];
    let back = reread(READING, &mut octets).unwrap();
    let comparison = if back == READING {
        "the same reading"
    } else {
        "another reading"
    };
    println!(rt;
        "\n3. The reading: the skid encodes it to 7 octets\n   octet  field                hexadecimal  value"
    )?;
    show_rows(rt, &octets, &record_rows(READING))?;
    println!(rt; "   decoded again: {comparison}")
}

// The response with the reading to a request.
pub fn answer(parameters: &Parameters, request: &Request) -> [u8; LENGTH] {
    let response = Response {
        safety_data: READING,
        flags: ResponseFlags::default(),
        consumer_id: request.consumer_id,
        monitoring_number: request.monitoring_number,
    };
    let mut buffer = [0; LONGEST];
    let end = response.build(parameters, &mut buffer).unwrap();
    buffer[0..end].try_into().unwrap()
}

// The fields behind the record.
fn trailer_rows(exchange: &Exchange) -> [Row; 7] {
    let Request {
        consumer_id,
        monitoring_number,
        ..
    } = exchange.request;
    let message = &exchange.message;
    let identities = Identities::of::<Meter>(&exchange.parameters);
    [
        Row {
            field: layout::FLAGS,
            value: Value::Answered(message[7]),
        },
        Row {
            field: layout::IDENTITY_1,
            value: Value::Identifier(identities.first),
        },
        Row {
            field: layout::IDENTITY_2,
            value: Value::Identifier(identities.second),
        },
        Row {
            field: layout::IDENTITY_3,
            value: Value::Identifier(identities.third),
        },
        Row {
            field: layout::CONSUMER_ID,
            value: Value::Identifier(consumer_id),
        },
        Row {
            field: layout::NUMBER,
            value: Value::Number(monitoring_number),
        },
        Row {
            field: layout::SIGNATURE,
            value: Value::Identifier(signature(&message[0..SIGNED])),
        },
    ]
}

pub fn show_response(rt: &HostRuntime, exchange: &Exchange) -> io::Result<()> {
    println!(rt;
        "\n4. The response: the skid answers, in 32 octets\n   octet  field                hexadecimal  value"
    )?;
    show_rows(rt, &exchange.message, &record_rows(exchange.reading))?;
    show_rows(rt, &exchange.message, &trailer_rows(exchange))
}
