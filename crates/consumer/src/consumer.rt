ghost use Rattle.std.specs.Prelude.{◌≡◌, ◌≤◌, length};
ghost use Rattle.consumer.specs.Cycled.{Cycled, Met, SentSo};
ghost use Rattle.consumer.specs.Judgment.{accepted_before, judged};
ghost use Rattle.consumer.specs.Steps.{fresh, turn_of};
ghost use Rattle.message.specs.Response.{longest};

use crate::event::{CycleAnswer, CycleRefusal, Turn};
use crate::fault::CycleFault;
use crate::inputs::Inputs;
use crate::setup::Setup;
use crate::state::{Shown, State, TimedRequest};
use carrier::Carrier;
use carrier::lane::Lane;
use message::check::{check, read_record};
use message::response::LONGEST;
use message::sound::is_all_zero;
use record::kind::RecordKind;

// A consumer of records of kind K.
#[derive(Drop)]
pub struct Consumer<K> {
    setup: Setup,
    state: State<K>,
}

impl<K: RecordKind> Consumer<K> {
    // A consumer just made: blank, with no standing request and no hold.
    pub fn new(setup: Setup) -> Consumer<K>
        ensures setup { result.setup ≡ setup }
        ensures state { result.state ≡ fresh K.RecordKind.format setup }
    {
        let state = State {
            shown: Shown::blank(),
            standing: None,
            accepted: None,
            next_number: setup.start.value(),
            time: None,
            input: false,
            hold: false,
            fault_time: None,
            error: false,
        };
        Consumer { setup, state }
    }

    // Is this the number of the last accepted request, if any?
    fn has_accepted(&self, number: u32) -> bool
        ensures { result ≡ accepted_before self.now.state.accepted number }
    {
        self.state
            .accepted
            .is_some_and(|last| number == last.request.monitoring_number)
    }

    // What a message is to the standing request.
    #[tactic(auto, unfolding(crate::specs::Judgment::judged))]
    fn judge(&self, message: &[u8], standing: TimedRequest) -> Result<Turn<K>, CycleFault>
        ensures { result ≡ judged K.RecordKind.format self.now.setup.parameters self.now.state.accepted standing
            message.now }
    {
        if is_all_zero(message) {
            return Ok(Turn::Ignored);
        }
        let checked = check::<K>(&self.setup.parameters, message)?;
        if self.has_accepted(checked.monitoring_number) {
            return Ok(Turn::Ignored);
        }
        if checked.monitoring_number != standing.request.monitoring_number {
            return Err(CycleFault::Number {
                place: K::LENGTH + 17,
            });
        }
        let safety_data = read_record::<K>(message)?;
        Ok(Turn::Accepted(safety_data, checked.flags))
    }

    // The turn that a message gives.
    fn hear(&self, message: &[u8], standing: TimedRequest) -> Turn<K>
        ensures { result ≡ turn_of (judged K.RecordKind.format self.now.setup.parameters self.now.state.accepted standing
            message.now) }
    {
        // a match: a constructor passed, `unwrap_or_else(Turn::Fault)`, gets no proof where its result alone names K
        match self.judge(message, standing) {
            Ok(turn) => turn,
            Err(fault) => Turn::Fault(fault),
        }
    }

    // What a cycle meets; it fetches at most once.
    fn meet<C: Carrier>(&self, carrier: &mut C, inputs: Inputs, buffer: &mut [u8]) -> Turn<K>
        requires { longest ≤ length buffer.old }
        ensures { Met K.RecordKind.format self.now.setup.parameters self.now.state inputs
            (C.Carrier.lanes carrier.old) buffer.old (C.Carrier.lanes carrier.new) buffer.new result }
    {
        if !inputs.enable {
            return Turn::Disabled;
        }
        let Some(standing) = self.state.standing else {
            return Turn::Started;
        };
        if self
            .state
            .has_expired(&self.setup.parameters, inputs.reading, standing)
        {
            return Turn::Expired;
        }
        match carrier.fetch(Lane::Down, buffer) {
            Ok(Some(size)) => self.hear(&buffer[0..size], standing),
            Ok(None) | Err(_) => Turn::Nothing,
        }
    }

    // Places the request that was made, if any; a full lane loses it.
    fn send<C: Carrier>(&self, carrier: &mut C, made: Option<TimedRequest>)
        ensures { SentSo (C.Carrier.lanes carrier.old) made (C.Carrier.lanes carrier.new) }
    {
        if let Some(asked) = made {
            let _ = carrier.place(Lane::Up, &asked.request.octets());
        }
    }

    // One cycle: it asks, or takes what came, and answers what to show.
    pub fn cycle<C: Carrier>(
        &mut self,
        carrier: &mut C,
        inputs: Inputs,
        buffer: &mut [u8],
    ) -> Result<CycleAnswer<K>, CycleRefusal>
        ensures setup { self.new.setup ≡ self.old.setup }
        ensures cycled { Cycled K.RecordKind.format self.old.setup.parameters self.old.state inputs
            (C.Carrier.lanes carrier.old) buffer.old self.new.state (C.Carrier.lanes carrier.new) buffer.new result }
    {
        if buffer.len() < LONGEST {
            return Err(CycleRefusal::ShortBuffer);
        }
        let turn = self.meet(carrier, inputs, buffer);
        let made = self.state.settle(&self.setup.parameters, inputs, turn);
        self.send(carrier, made);
        Ok(CycleAnswer {
            shown: self.state.shown,
            event: turn.event(),
        })
    }
}
