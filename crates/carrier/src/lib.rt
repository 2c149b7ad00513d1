// Carriers: what a network may do with the messages that two ends hand to it, and one that is made of two cells.
#![tactic(auto)]

ghost use Rattle.carrier.specs.Lanes.{Lanes, HasSlots};
ghost use Rattle.carrier.specs.Place.{Placed};
ghost use Rattle.carrier.specs.Fetch.{Fetched};

pub mod cell;
pub mod keeping;
pub mod lane;
pub mod publishing;
pub mod sendable;

use lane::{FetchRefusal, Lane, PlaceRefusal};

// What carries messages between two ends. It is known only by its meaning: which messages each lane holds, and what
// place and fetch may do to them.
pub trait Carrier {
    ghost lanes: { Self → Lanes };

    // Puts a message on a lane; it is taken, or the lane is full.
    fn place(&mut self, lane: Lane, message: &[u8]) -> Result<(), PlaceRefusal>
        ensures { Placed lane message.now (lanes self.old) (lanes self.new) result };

    // Writes a message of a lane to the start of a buffer and answers its length, or that there is none.
    fn fetch(&mut self, lane: Lane, buffer: &mut [u8]) -> Result<Option<usize>, FetchRefusal>
        ensures { Fetched lane (lanes self.old) (lanes self.new) buffer.old buffer.new result };

    ghost slots: { (s : Self) → HasSlots (lanes s) };
}
