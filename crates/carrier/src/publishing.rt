ghost use Rattle.std.specs.Prelude.{◌≡◌};
ghost use Rattle.carrier.specs.Cells.{published, nothing_published};
ghost use Rattle.carrier.specs.CellsLemmas.{one_slot};

use crate::Carrier;
use crate::cell::Cell;
use crate::lane::{FetchRefusal, Lane, PlaceRefusal};
use crate::sendable::Sendable;
use message::response::LONGEST;

// A carrier that publishes: each lane is a variable that holds the latest message and shows it until the next.
#[derive(Drop)]
pub struct Publishing {
    up: Cell,
    down: Cell,
}

impl Publishing {
    // Both lanes are empty.
    pub fn new() -> Publishing
        ensures { published result.up result.down ≡ nothing_published }
    {
        Publishing {
            up: Cell::empty(),
            down: Cell::empty(),
        }
    }
}

impl Carrier for Publishing {
    ghost lanes = { λ s. published s.up s.down };

    ghost slots = { λ s. one_slot s.up s.down };

    fn place(&mut self, lane: Lane, message: &[u8]) -> Result<(), PlaceRefusal> {
        let message = Sendable::try_from(message)?;
        match lane {
            Lane::Up => self.up.hold(message),
            Lane::Down => self.down.hold(message),
        }
        Ok(())
    }

    fn fetch(&mut self, lane: Lane, buffer: &mut [u8]) -> Result<Option<usize>, FetchRefusal> {
        if buffer.len() < LONGEST {
            return Err(FetchRefusal::ShortBuffer);
        }
        Ok(match lane {
            Lane::Up => self.up.show(buffer),
            Lane::Down => self.down.show(buffer),
        })
    }
}
