use consumer::event::{CycleAnswer, Event};
use provider::answer::ServeAnswer;
use record::meter::Meter;
use std::fmt;

// What a cycle at this time told the bay.
#[derive(Clone, Copy)]
pub struct BayLine {
    pub time: u32,
    pub answer: CycleAnswer<Meter>,
}

impl fmt::Display for BayLine {
    fn fmt<W: fmt::Write>(&self, f: &mut fmt::Formatter<W>) -> fmt::Result {
        write!(f, "{:>5} ms  bay: ", self.time)?;
        match self.answer.event {
            Event::Disabled => write!(f, "disabled")?,
            Event::Started => write!(f, "asks for the first time")?,
            Event::Expired => write!(f, "request expired, asks again")?,
            Event::Nothing => write!(f, "no response")?,
            Event::Ignored => write!(f, "old response ignored")?,
            Event::Fault(fault) => {
                write!(f, "fault {} at octet {}", fault.number(), fault.place())?;
            }
            Event::Accepted => write!(f, "response accepted")?,
        }
        let shown = self.answer.shown;
        if shown.fsv_activated {
            write!(f, ", shows substitutes")?;
        } else {
            write!(f, ", shows {} pulses", shown.safety_data.pulses)?;
        }
        if shown.operator_ack_requested {
            write!(f, ", wishes for an acknowledgment")?;
        }
        Ok(())
    }
}

// What a serve at this time did, and the pulses that it was given.
#[derive(Clone, Copy)]
pub struct SkidLine {
    pub time: u32,
    pub answer: ServeAnswer,
    pub pulses: u32,
}

impl fmt::Display for SkidLine {
    fn fmt<W: fmt::Write>(&self, f: &mut fmt::Formatter<W>) -> fmt::Result {
        let pulses = self.pulses;
        write!(f, "{:>5} ms  skid: ", self.time)?;
        match self.answer {
            ServeAnswer::Idle => write!(f, "no request"),
            ServeAnswer::New(request) => {
                let number = request.monitoring_number;
                write!(f, "answers request {number} with {pulses} pulses")
            }
            ServeAnswer::Again(request) => {
                let number = request.monitoring_number;
                write!(f, "answers request {number} again, as before")
            }
        }
    }
}
