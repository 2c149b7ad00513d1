use crate::bay::{Refusal, Shown};
use message::fault::MessageFault;
use record::meter::Meter;
use std::fmt;

// What becomes of a damaged response.
#[derive(Clone, Copy)]
pub enum Outcome {
    Refused(MessageFault),
    // the bay refuses the number, which is not that of its request
    Foreign(u32),
    Count(u32),
    Temperature(i16),
    Validity(bool),
    Flags(u8),
}

impl Outcome {
    // The outcome, and where the bay accepts, what it shows otherwise than it was sent.
    pub fn of(sent: Meter, judged: Result<Shown, Refusal>) -> Outcome {
        match judged {
            Err(Refusal::Message(fault)) => Outcome::Refused(fault),
            Err(Refusal::Number(number)) => Outcome::Foreign(number),
            Ok(Shown { reading, flags }) => {
                if reading.pulses != sent.pulses {
                    Outcome::Count(reading.pulses)
                } else if reading.centidegrees != sent.centidegrees {
                    Outcome::Temperature(reading.centidegrees)
                } else if reading.valid != sent.valid {
                    Outcome::Validity(reading.valid)
                } else {
                    Outcome::Flags(u8::from(flags))
                }
            }
        }
    }
}

impl fmt::Display for Outcome {
    fn fmt<W: fmt::Write>(&self, f: &mut fmt::Formatter<W>) -> fmt::Result {
        match self {
            Outcome::Refused(fault) => write!(
                f,
                "refused: {}, {}, octet {}",
                fault.number(),
                fault.layer(),
                fault.place()
            ),
            Outcome::Foreign(number) => write!(
                f,
                "{number} passes check and read_record; the consumer refuses the number: 24"
            ),
            Outcome::Count(pulses) => write!(f, "accepted with another count: {pulses}"),
            Outcome::Temperature(hundredths) => {
                write!(f, "accepted with another temperature: {hundredths}")
            }
            Outcome::Validity(valid) => write!(f, "accepted with another validity: {valid}"),
            Outcome::Flags(octet) => write!(f, "accepted with other flags: {octet:03b}"),
        }
    }
}

// How many responses were refused by a check, how many by the consumer for their number, and how many accepted.
#[derive(Clone, Copy, Default)]
pub struct Tally {
    pub refused: u32,
    pub foreign: u32,
    pub accepted: u32,
}

impl Tally {
    pub fn add(&mut self, outcome: Outcome) {
        match outcome {
            Outcome::Refused(_) => self.refused = self.refused.saturating_add(1),
            Outcome::Foreign(_) => self.foreign = self.foreign.saturating_add(1),
            _ => self.accepted = self.accepted.saturating_add(1),
        }
    }
}
