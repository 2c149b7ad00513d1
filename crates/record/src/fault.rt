ghost use Rattle.std.specs.Prelude.{◌≡◌, Some, None};
ghost use Rattle.record.specs.declared.fault.Layer.{Layer};
ghost use Rattle.std.specs.Fmt.{padded};
ghost use Rattle.record.specs.Names.{layer_text};
ghost use Rattle.record.specs.Numbers.{encode_number};

use std::fmt;

// Which part of the link found a fault.
#[derive(Clone, Copy, Debug, PartialEq, Eq)]
pub enum Layer {
    Message,
    Cycle,
    Record,
}

impl fmt::Display for Layer {
    ghost output = { λ layer. Some (layer_text layer) };

    ghost styled_output = { λ layer spec. Some (padded spec (layer_text layer)) };

    fn fmt<W: fmt::Write>(&self, f: &mut fmt::Formatter<W>) -> fmt::Result {
        f.pad(match self {
            Self::Message => "message",
            Self::Cycle => "cycle",
            Self::Record => "record",
        })
    }
}

// Why octets are no record.
#[derive(Clone, Copy, Debug, PartialEq, Eq)]
pub enum RecordCause {
    // there are not as many octets as the kind has
    Length,
    // a Boolean octet above 1
    Boolean,
    // a tag that stands for no case
    Tag,
    // a Double that is infinite or no number
    NotFinite,
    // an octet that has to be zero is not
    NotZero,
}

// What is wrong with the octets of a record, and at which of them the offending field begins.
#[derive(Clone, Copy, Debug, PartialEq, Eq)]
pub struct RecordFault {
    pub cause: RecordCause,
    pub place: usize,
}

impl RecordFault {
    // The number that the rules of the link give it.
    pub fn number(&self) -> u8
        ensures { result ≡ 25 }
    {
        25
    }

    pub fn layer(&self) -> Layer
        ensures { result ≡ Layer.Record }
    {
        Layer::Record
    }

    pub fn place(&self) -> usize
        ensures { result ≡ self.now.place }
    {
        self.place
    }
}

// Why a record was not written.
#[derive(Clone, Copy, Debug, PartialEq, Eq)]
pub enum EncodeRefusal {
    // the slice has no room for the octets of a record
    Short,
    // the record is not sound
    Unsound,
}

impl EncodeRefusal {
    // The refusal's number, where it has one.
    pub fn number(&self) -> Option<u8>
        ensures { result ≡ encode_number self.now }
    {
        match self {
            EncodeRefusal::Short => None,
            EncodeRefusal::Unsound => Some(8),
        }
    }
}
