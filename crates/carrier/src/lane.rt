ghost use Rattle.std.specs.Prelude.{◌≡◌, Some};
ghost use Rattle.std.specs.Fmt.{padded};
ghost use Rattle.carrier.specs.Names.{lane_text};
ghost use Rattle.carrier.specs.Numbers.{place_number, fetch_number};

use std::fmt;

// The two directions: requests go up, responses down.
#[derive(Clone, Copy, Debug, PartialEq, Eq)]
pub enum Lane {
    Up,
    Down,
}

impl fmt::Display for Lane {
    ghost output = { λ lane. Some (lane_text lane) };

    ghost styled_output = { λ lane spec. Some (padded spec (lane_text lane)) };

    fn fmt<W: fmt::Write>(&self, f: &mut fmt::Formatter<W>) -> fmt::Result {
        f.pad(match self {
            Lane::Up => "up",
            Lane::Down => "down",
        })
    }
}

// Why a message was not placed.
#[derive(Clone, Copy, Debug, PartialEq, Eq)]
pub enum PlaceRefusal {
    // it has no octets, or over 1,525
    Length,
    // the lane takes no more
    Full,
}

impl PlaceRefusal {
    // The number that the rules of the link give it.
    pub fn number(&self) -> u8
        ensures { result ≡ place_number self.now }
    {
        match self {
            PlaceRefusal::Length => 9,
            PlaceRefusal::Full => 10,
        }
    }
}

// Why nothing was fetched.
#[derive(Clone, Copy, Debug, PartialEq, Eq)]
pub enum FetchRefusal {
    // the buffer has under 1,525 octets
    ShortBuffer,
}

impl FetchRefusal {
    // The number that the rules of the link give it.
    pub fn number(&self) -> u8
        ensures { result ≡ fetch_number self.now }
    {
        match self {
            FetchRefusal::ShortBuffer => 7,
        }
    }
}
