// The lines that tell what was answered.
ghost use Rattle.std.specs.Prelude.{◌≡◌, ◌++◌, Some, codes, decimal};
ghost use Rattle.std.specs.Fmt.{WritesOnOk};
ghost use Rattle.consumer.specs.Cycled.{refusal_number};
ghost use Rattle.script.specs.Texts.{event_text, shown_text, cycle_text};
ghost use Rattle.script.specs.Texts.{answered_text, serve_text, place_text, refused_text};

use crate::choice::word;
use crate::kinds::Written;
use carrier::lane::{Lane, PlaceRefusal};
use consumer::event::{CycleAnswer, CycleRefusal, Event};
use consumer::state::Shown;
use message::request::Request;
use provider::answer::{ServeAnswer, ServeRefusal};
use std::fmt;
use text::hexadecimal::Hexadecimal;

#[derive(Clone, Copy)]
struct EventText(Event);

impl fmt::Display for EventText {
    ghost output = { λ text. Some (event_text text.0) };

    fn fmt<W: fmt::Write>(&self, f: &mut fmt::Formatter<W>) -> fmt::Result {
        match self.0 {
            Event::Disabled => write!(f, "disabled"),
            Event::Started => write!(f, "started"),
            Event::Expired => write!(f, "expired"),
            Event::Nothing => write!(f, "none"),
            Event::Ignored => write!(f, "ignored"),
            Event::Fault(fault) => write!(f, "fault {} at {}", fault.number(), fault.place()),
            Event::Accepted => write!(f, "accepted"),
        }
    }
}

// A record as a line has it.
#[derive(Clone, Copy)]
pub struct RecordText<'a, K>(pub &'a K);

impl<K: Written> fmt::Display for RecordText<'_, K> {
    ghost output = { λ text. Some (K.written text.0.now) };

    fn fmt<W: fmt::Write>(&self, f: &mut fmt::Formatter<W>) -> fmt::Result {
        self.0.write_to(f)
    }
}

#[derive(Clone, Copy)]
struct ShownText<K>(Shown<K>);

impl<K: Written> fmt::Display for ShownText<K> {
    ghost output = { λ text. Some (shown_text K.written text.0) };

    fn fmt<W: fmt::Write>(&self, f: &mut fmt::Formatter<W>) -> fmt::Result {
        let mark = word(self.0.fsv_activated, "substitutes", "process");
        let record = RecordText(&self.0.safety_data);
        let wish = word(self.0.operator_ack_requested, "on", "off");
        let ack = word(self.0.operator_ack_provider, "on", "off");
        let test = word(self.0.test_mode_activated, "on", "off");
        write!(
            f,
            "{mark} {record} wish={wish} ack-provider={ack} test-mode={test}"
        )
    }
}

// A cycle at this reading that was refused.
fn write_refused<W: fmt::Write>(
    f: &mut fmt::Formatter<W>,
    reading: u64,
    refusal: CycleRefusal,
) -> fmt::Result
    ensures { WritesOnOk W.write_str_gives f.old result (codes "cycle " ++ (decimal reading ++ (codes ": refused " ++ decimal (refusal_number refusal)))) f.new }
{
    write!(f, "cycle {reading}: refused {}", refusal.number())
}

// What a cycle at this reading answered.
#[derive(Clone, Copy)]
pub struct CycleLine<K> {
    pub reading: u64,
    pub answer: Result<CycleAnswer<K>, CycleRefusal>,
}

impl<K: Written> fmt::Display for CycleLine<K> {
    ghost output = { λ line. Some (cycle_text K.written line.reading line.answer) };

    fn fmt<W: fmt::Write>(&self, f: &mut fmt::Formatter<W>) -> fmt::Result {
        let reading = self.reading;
        match self.answer {
            Ok(CycleAnswer { shown, event }) => {
                let shown = ShownText(shown);
                let event = EventText(event);
                write!(f, "cycle {reading}: {shown} event={event}")
            }
            Err(refusal) => write_refused(f, reading, refusal),
        }
    }
}

// A request that was answered, new or again, and the response that was sent.
fn write_answered<W: fmt::Write>(
    f: &mut fmt::Formatter<W>,
    request: Request,
    age: &str,
    sent: &[u8],
) -> fmt::Result
    ensures { WritesOnOk W.write_str_gives f.old result (answered_text request age.now sent.now) f.new }
{
    let Request {
        consumer_id,
        monitoring_number,
        flags,
    } = request;
    let flags = u8::from(flags);
    let sent = Hexadecimal(sent);
    write!(
        f,
        "serve: answered consumer={consumer_id} number={monitoring_number} flags={flags} {age} sent={sent}"
    )
}

// What a serve answered, and the response that it sent, if any.
#[derive(Clone, Copy)]
pub struct ServeLine<'a> {
    pub answer: Result<ServeAnswer, ServeRefusal>,
    pub sent: &'a [u8],
}

impl fmt::Display for ServeLine<'_> {
    ghost output = { λ line. Some (serve_text line.answer line.sent.now) };

    fn fmt<W: fmt::Write>(&self, f: &mut fmt::Formatter<W>) -> fmt::Result {
        match self.answer {
            Ok(ServeAnswer::Idle) => write!(f, "serve: idle"),
            Ok(ServeAnswer::New(request)) => write_answered(f, request, "new", self.sent),
            Ok(ServeAnswer::Again(request)) => write_answered(f, request, "again", self.sent),
            Err(refusal) => write!(f, "serve: refused {}", refusal.number()),
        }
    }
}

// What a place on this lane answered.
#[derive(Clone, Copy)]
pub struct PlaceLine {
    pub lane: Lane,
    pub answer: Result<(), PlaceRefusal>,
}

impl fmt::Display for PlaceLine {
    ghost output = { λ line. Some (place_text line.lane line.answer) };

    fn fmt<W: fmt::Write>(&self, f: &mut fmt::Formatter<W>) -> fmt::Result {
        let lane = self.lane;
        match self.answer {
            Ok(()) => write!(f, "place {lane}: taken"),
            Err(refusal) => write!(f, "place {lane}: refused {}", refusal.number()),
        }
    }
}

// What was refused, and the refusal's number.
#[derive(Clone, Copy)]
pub struct Refused<'a> {
    pub name: &'a str,
    pub number: u8,
}

impl fmt::Display for Refused<'_> {
    ghost output = { λ refused. Some (refused_text refused.name.now refused.number) };

    fn fmt<W: fmt::Write>(&self, f: &mut fmt::Formatter<W>) -> fmt::Result {
        write!(f, "{}: refused {}", self.name, self.number)
    }
}
