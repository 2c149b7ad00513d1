ghost use Rattle.std.specs.Prelude.{◌≡◌};
ghost use Rattle.consumer.specs.Judgment.{cycle_number, cycle_layer, cycle_place};
ghost use Rattle.consumer.specs.declared.fault.CycleFault.TheVariants.{Message};

use message::fault::MessageFault;
use record::fault::Layer;

// What is wrong with a message that a cycle fetched.
#[derive(Clone, Copy, Debug, PartialEq, Eq)]
pub enum CycleFault {
    // the message's own fault, whole
    Message(MessageFault),
    // a monitoring number that is neither the standing request's nor the last accepted one
    Number { place: usize },
}

impl CycleFault {
    // The number that the rules of the link give it.
    pub fn number(&self) -> u8
        ensures { result ≡ cycle_number self.now }
    {
        match self {
            CycleFault::Message(fault) => fault.number(),
            CycleFault::Number { .. } => 24,
        }
    }

    pub fn layer(&self) -> Layer
        ensures { result ≡ cycle_layer self.now }
    {
        match self {
            CycleFault::Message(fault) => fault.layer(),
            CycleFault::Number { .. } => Layer::Cycle,
        }
    }

    pub fn place(&self) -> usize
        ensures { result ≡ cycle_place self.now }
    {
        match self {
            CycleFault::Message(fault) => fault.place(),
            CycleFault::Number { place } => *place,
        }
    }
}

impl From<MessageFault> for CycleFault {
    ghost from_gives = { λ e r. r ≡ Message e };

    fn from(e: MessageFault) -> CycleFault {
        CycleFault::Message(e)
    }
}
