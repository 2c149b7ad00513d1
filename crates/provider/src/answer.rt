ghost use Rattle.std.specs.Prelude.{◌≡◌};
ghost use Rattle.provider.specs.Serve.{serve_number, refused_fetching, refused_building};

use carrier::lane::FetchRefusal;
use message::request::Request;
use message::response::BuildRefusal;

// What a serve did.
#[derive(Clone, Copy, Debug, PartialEq, Eq)]
pub enum ServeAnswer {
    // there was no request
    Idle,
    // the request was new: the given record and flags went out
    New(Request),
    // the request was the one answered last: what went out then went out again
    Again(Request),
}

// Why a serve did not answer.
#[derive(Clone, Copy, Debug, PartialEq, Eq)]
pub enum ServeRefusal {
    // the buffer has under 1,525 octets
    ShortBuffer,
    // the given record is not sound
    UnsoundRecord,
    // the message that was fetched does not have nine octets
    NotARequest,
    // the down lane is full; the response is built and remembered
    Full,
}

impl ServeRefusal {
    // The number that the rules of the link give it.
    pub fn number(&self) -> u8
        ensures { result ≡ serve_number self.now }
    {
        match self {
            ServeRefusal::ShortBuffer => 7,
            ServeRefusal::UnsoundRecord => 8,
            ServeRefusal::NotARequest => 11,
            ServeRefusal::Full => 10,
        }
    }
}

impl From<FetchRefusal> for ServeRefusal {
    ghost from_gives = { λ e r. r ≡ refused_fetching e };

    fn from(e: FetchRefusal) -> ServeRefusal {
        match e {
            FetchRefusal::ShortBuffer => ServeRefusal::ShortBuffer,
        }
    }
}

impl From<BuildRefusal> for ServeRefusal {
    ghost from_gives = { λ e r. r ≡ refused_building e };

    fn from(e: BuildRefusal) -> ServeRefusal {
        match e {
            BuildRefusal::ShortBuffer => ServeRefusal::ShortBuffer,
            BuildRefusal::UnsoundRecord => ServeRefusal::UnsoundRecord,
        }
    }
}
