ghost use Rattle.std.specs.Prelude.{◌≡◌};
ghost use Rattle.message.specs.Check.{checked, record_read};
ghost use Rattle.record.specs.Meters.{meter_format};
ghost use Rattle.readout.specs.Judging.{judgment};
ghost use Rattle.readout.specs.declared.bay.Refusal.TheVariants.{Message};

use crate::exchange::Exchange;
use crate::layout;
use crate::rows::{Row, show_rows};
use crate::value::Value;
use message::check::{check, read_record};
use message::fault::MessageFault;
use message::flags::{RequestFlags, ResponseFlags};
use message::parameters::Parameters;
use message::request::Request;
use record::meter::Meter;
use std::io;

// What the bay takes from a response.
#[derive(Clone, Copy)]
pub struct Shown {
    pub reading: Meter,
    pub flags: ResponseFlags,
}

// Why the bay takes nothing from it: a check fails, or this is the number of another request.
#[derive(Clone, Copy)]
pub enum Refusal {
    Message(MessageFault),
    Number(u32),
}

impl From<MessageFault> for Refusal {
    ghost from_gives = { λ e r. r ≡ Message e };

    fn from(e: MessageFault) -> Refusal {
        Refusal::Message(e)
    }
}

// The request for one reading.
pub fn ask(parameters: &Parameters) -> Request {
    Request {
        consumer_id: parameters.consumer_id,
        monitoring_number: 1000,
        flags: RequestFlags::default(),
    }
}

pub fn show_request(rt: &HostRuntime, request: &Request) -> io::Result<()> {
    let octets = request.octets();
    let rows = [
        Row {
            field: layout::ASKED_BY,
            value: Value::Identifier(request.consumer_id),
        },
        Row {
            field: layout::ASKED_NUMBER,
            value: Value::Number(request.monitoring_number),
        },
        Row {
            field: layout::ASKED_FLAGS,
            value: Value::Asked(octets[8]),
        },
    ];
    println!(rt;
        "\n2. The request: the bay asks for a reading, in 9 octets\n   octet  field                hexadecimal  value"
    )?;
    show_rows(rt, &octets, &rows)
}

// Judges a response as a consumer does: the message's checks, then the number of its own request, then the record.
pub fn judge(parameters: &Parameters, request: &Request, message: &[u8]) -> Result<Shown, Refusal>
    ensures { result ≡ judgment request.now.monitoring_number (checked meter_format parameters.now message.now) (record_read meter_format message.now) }
{
    let passed = check::<Meter>(parameters, message)?;
    if passed.monitoring_number != request.monitoring_number {
        return Err(Refusal::Number(passed.monitoring_number));
    }
    let reading = read_record::<Meter>(message)?;
    Ok(Shown {
        reading,
        flags: passed.flags,
    })
}

pub fn show_checks(rt: &HostRuntime, exchange: &Exchange) -> io::Result<()> {
    let asked = exchange.request.monitoring_number;
    match judge(&exchange.parameters, &exchange.request, &exchange.message) {
        Ok(shown) => println!(rt;
            "   The bay judges it:\n   check        passes: length, signature, identity 1 to 3 and consumer id are right\n   number       passes: {asked} is the number of the bay's own request\n   read_record  passes: the octets are a meter record\n   the bay shows {} pulses",
            shown.reading.pulses
        ),
        Err(_) => println!(rt; "   The bay refuses it."),
    }
}
