ghost use Rattle.std.specs.Prelude.{◌≡◌, true, not, ◌&&◌};
ghost use Rattle.consumer.specs.Steps.{time_of, ran_back, is_repeated, is_edge, has_expired, blank, wish_ended, accepting};
ghost use Rattle.consumer.specs.Steps.{showing, withdrawn, released, holding, answered, failed, asked, after_turn, made};

use crate::event::Turn;
use crate::inputs::Inputs;
use crate::state::{Shown, State, TimedRequest};
use message::flags::{RequestFlags, ResponseFlags};
use message::number::next_number;
use message::parameters::Parameters;
use message::request::Request;
use record::kind::RecordKind;

// The larger of the time of the cycle before, if any, and the reading.
fn later(before: Option<u64>, reading: u64) -> u64
    ensures { result ≡ time_of before reading }
{
    before.map_or(reading, |time| time.max(reading))
}

// Is the reading below the time of the cycle before, if any?
fn has_run_back(before: Option<u64>, reading: u64) -> bool
    ensures { result ≡ ran_back before reading }
{
    before.is_some_and(|time| reading < time)
}

// Does a fault at this time come no more than the error interval after the one before, if any?
fn is_repeated(parameters: &Parameters, before: Option<u64>, time: u64) -> bool
    ensures { result ≡ is_repeated parameters.now before time }
{
    let interval = u64::from(parameters.error_interval) * 60_000;
    before.is_some_and(|fault| time.saturating_sub(fault) <= interval)
}

impl<K: RecordKind> State<K> {
    // Has the standing request expired?
    pub fn has_expired(&self, parameters: &Parameters, reading: u64, standing: TimedRequest) -> bool
        ensures { result ≡ has_expired parameters.now self.now reading standing }
    {
        let time = later(self.time, reading);
        has_run_back(self.time, reading)
            || time.saturating_sub(standing.time) > u64::from(parameters.timeout)
    }

    // Is the acknowledgment input an edge?
    fn sees_edge(&self, ack: bool) -> bool
        ensures { result ≡ is_edge self.now ack }
    {
        ack && !self.input && self.shown.operator_ack_requested
    }

    // Makes the request with the next number for what is now shown; it stands from now on.
    fn ask(&mut self, parameters: &Parameters, time: u64, error: bool) -> Option<TimedRequest>
        ensures state { self.new ≡ asked parameters.now time error self.old }
        ensures made { result ≡ self.new.standing }
    {
        let flags = RequestFlags {
            communication_error: error,
            operator_ack_requested: self.shown.operator_ack_requested,
            fsv_activated: self.shown.fsv_activated,
        };
        let request = Request {
            consumer_id: parameters.consumer_id,
            monitoring_number: self.next_number,
            flags,
        };
        self.standing = Some(TimedRequest { request, time });
        self.next_number = next_number(self.next_number);
        self.error = false;
        self.standing
    }

    // Disabled: blank, with no request.
    fn stop(&mut self)
        ensures { self.new ≡ showing (blank K.RecordKind.format) (withdrawn self.old) }
    {
        self.shown = Shown::blank();
        self.standing = None;
    }

    // Started: blank.
    fn start(&mut self, edge: bool)
        ensures { self.new ≡ showing (blank K.RecordKind.format) (released edge self.old) }
    {
        self.hold = self.hold && !edge;
        self.shown = Shown::blank();
    }

    // Expired: blank, and a hold where an acknowledgment is necessary.
    fn expire(&mut self, edge: bool, necessary: bool)
        ensures { self.new ≡ showing (blank K.RecordKind.format) (holding necessary (released edge self.old)) }
    {
        self.hold = self.hold && !edge || necessary;
        self.shown = Shown::blank();
    }

    // Nothing that counts: the request stands on.
    fn wait(&mut self, edge: bool)
        ensures { self.new ≡ showing (wish_ended edge self.old.shown) (released edge self.old) }
    {
        self.hold = self.hold && !edge;
        self.shown = self.shown.after_edge(edge);
    }

    // A fault: the request stands on, and a repeated fault starts a hold.
    fn fail(&mut self, repeated: bool, time: u64, edge: bool)
        ensures { self.new ≡ failed K.RecordKind.format repeated time edge self.old }
    {
        self.hold = self.hold && !edge || repeated;
        self.shown = self.shown.after_edge(edge).after_fault(repeated);
        self.fault_time = Some(time);
        self.error = true;
    }

    // The response to the standing request, which is the last accepted one from now on.
    fn accept(&mut self, edge: bool, safety_data: K, flags: ResponseFlags)
        ensures { self.new ≡ showing (accepting K.RecordKind.format (self.old.hold && not edge) safety_data flags)
            (answered (released edge self.old)) }
    {
        self.hold = self.hold && !edge;
        self.shown = Shown::accepting(self.hold, safety_data, flags);
        self.accepted = self.standing;
    }

    // Takes the turn: the state after the cycle, and the request that it made, if any.
    pub fn settle(
        &mut self,
        parameters: &Parameters,
        inputs: Inputs,
        turn: Turn<K>,
    ) -> Option<TimedRequest>
        ensures state { self.new ≡ after_turn K.RecordKind.format parameters.now self.old
            (time_of self.old.time inputs.reading) inputs.ack (is_edge self.old inputs.ack) turn }
        ensures made { result ≡ made turn self.new }
    {
        let time = later(self.time, inputs.reading);
        let edge = self.sees_edge(inputs.ack);
        self.time = Some(time);
        self.input = inputs.ack;
        match turn {
            Turn::Disabled => self.stop(),
            Turn::Nothing | Turn::Ignored => self.wait(edge),
            Turn::Fault(_) => self.fail(is_repeated(parameters, self.fault_time, time), time, edge),
            Turn::Started => {
                self.start(edge);
                return self.ask(parameters, time, self.error);
            }
            Turn::Expired => {
                self.expire(edge, parameters.operator_ack_necessary);
                return self.ask(parameters, time, true);
            }
            Turn::Accepted(safety_data, flags) => {
                self.accept(edge, safety_data, flags);
                return self.ask(parameters, time, self.error);
            }
        }
        None
    }
}
