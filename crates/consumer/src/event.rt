ghost use Rattle.std.specs.Prelude.{◌≡◌};
ghost use Rattle.consumer.specs.Cycled.{refusal_number};
ghost use Rattle.consumer.specs.Steps.{event_of};

use crate::fault::CycleFault;
use crate::state::Shown;
use message::flags::ResponseFlags;

// What a cycle meets: the turn that it takes.
#[derive(Clone, Copy)]
pub enum Turn<K> {
    // enable is off
    Disabled,
    // no request stood
    Started,
    // the standing request has expired
    Expired,
    // the fetch brought none
    Nothing,
    // a message that is all zero or bears the last accepted number
    Ignored,
    Fault(CycleFault),
    // the response to the standing request
    Accepted(K, ResponseFlags),
}

impl<K: Copy> Turn<K> {
    // A method and no `From`: it says by its name what is told of the turn.
    pub fn event(&self) -> Event
        ensures { result ≡ event_of self.now }
    {
        match *self {
            Turn::Disabled => Event::Disabled,
            Turn::Started => Event::Started,
            Turn::Expired => Event::Expired,
            Turn::Nothing => Event::Nothing,
            Turn::Ignored => Event::Ignored,
            Turn::Fault(fault) => Event::Fault(fault),
            Turn::Accepted(_, _) => Event::Accepted,
        }
    }
}

// The turn as a cycle tells it: an accepted record is told only by what is shown.
// A type of its own: as a turn that carries nothing, each program would have to write Accepted(()).
#[derive(Clone, Copy, Debug, PartialEq, Eq)]
pub enum Event {
    Disabled,
    Started,
    Expired,
    Nothing,
    Ignored,
    Fault(CycleFault),
    Accepted,
}

// What a cycle answers.
#[derive(Clone, Copy, Debug, PartialEq, Eq)]
pub struct CycleAnswer<K> {
    pub shown: Shown<K>,
    pub event: Event,
}

// Why a cycle was refused: it counts as no cycle.
#[derive(Clone, Copy, Debug, PartialEq, Eq)]
pub enum CycleRefusal {
    // the buffer has under 1,525 octets
    ShortBuffer,
}

impl CycleRefusal {
    // The number that the rules of the link give it.
    pub fn number(&self) -> u8
        ensures { result ≡ refusal_number self.now }
    {
        match self {
            CycleRefusal::ShortBuffer => 7,
        }
    }
}
