ghost use Rattle.std.specs.Prelude.{◌≡◌};
ghost use Rattle.message.specs.Faults.{message_number, message_layer, message_place};
ghost use Rattle.message.specs.declared.fault.MessageFault.TheVariants.{Record};

use record::fault::{Layer, RecordFault};

// Why a message is not the response that it should be, with the octet at which the offending field begins.
#[derive(Clone, Copy, Debug, PartialEq, Eq)]
pub enum MessageFault {
    // another number of octets than a response has
    Length,
    Signature { place: usize },
    Identity { place: usize },
    Consumer { place: usize },
    // the record's own fault, whole
    Record(RecordFault),
}

impl MessageFault {
    // The number that the rules of the link give it.
    pub fn number(&self) -> u8
        ensures { result ≡ message_number self.now }
    {
        match self {
            MessageFault::Length | MessageFault::Signature { .. } => 21,
            MessageFault::Identity { .. } => 22,
            MessageFault::Consumer { .. } => 23,
            MessageFault::Record(fault) => fault.number(),
        }
    }

    pub fn layer(&self) -> Layer
        ensures { result ≡ message_layer self.now }
    {
        match self {
            MessageFault::Record(fault) => fault.layer(),
            _ => Layer::Message,
        }
    }

    pub fn place(&self) -> usize
        ensures { result ≡ message_place self.now }
    {
        match self {
            MessageFault::Length => 0,
            MessageFault::Signature { place }
            | MessageFault::Identity { place }
            | MessageFault::Consumer { place } => *place,
            MessageFault::Record(fault) => fault.place(),
        }
    }
}

impl From<RecordFault> for MessageFault {
    ghost from_gives = { λ e r. r ≡ Record e };

    fn from(e: RecordFault) -> MessageFault {
        MessageFault::Record(e)
    }
}
