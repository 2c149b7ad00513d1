// The calling carrier: each lane is a chain of slots in a memory that is lent to it.
#![tactic(auto)]

ghost use Rattle.std.specs.Prelude.{◌≡◌, false};
ghost use Rattle.calling.specs.Meaning.{meaning, both_whole, made_over, TakesNothing, BringsNothing};
ghost use Rattle.calling.specs.MeaningLemmas.{some_slots};
ghost use Rattle.carrier.specs.Place.{Placed};
ghost use Rattle.carrier.specs.Fetch.{Fetched};

mod chains;
pub mod lane;
pub mod memory;
mod slot;

use carrier::Carrier;
use carrier::lane::{FetchRefusal, Lane, PlaceRefusal};
use carrier::sendable::Sendable;
use lane::SlotLane;
use message::response::LONGEST;

// Messages are placed and fetched by calls at both ends; a fetched message is gone.
#[derive(Drop)]
pub struct Calling<'m, 'n> {
    up: SlotLane<'m>,
    down: SlotLane<'n>,
}

impl<'m, 'n> Calling<'m, 'n> {
    // Both lanes are empty. If either memory is not 1 to 16 whole slots, the carrier takes and brings nothing, and neither
    // memory is ever written.
    pub fn new(up: &'m mut [u8], down: &'n mut [u8]) -> Calling<'m, 'n>
        ensures means { meaning result ≡ made_over up.old down.old }
        ensures stands { both_whole up.old down.old ≡ false
            → (result.up.octets ≡ up.old) × (result.down.octets ≡ down.old) }
    {
        Calling::over(SlotLane::new(up), SlotLane::new(down))
    }

    // Both lanes are made anew, and empty, whatever they held. If either memory is not 1 to 16 whole slots, the carrier takes
    // and brings nothing, and neither memory is ever written.
    #[tactic(auto, using(crate::proofs::Meanings::closed))]
    pub fn over(mut up: SlotLane<'m>, mut down: SlotLane<'n>) -> Calling<'m, 'n>
        ensures means { meaning result ≡ made_over up.entry.octets down.entry.octets }
        ensures stands { both_whole up.entry.octets down.entry.octets ≡ false
            → (result.up.octets ≡ up.entry.octets) × (result.down.octets ≡ down.entry.octets) }
    {
        let whole = up.is_whole() && down.is_whole();
        if !whole {
            up.close();
            down.close();
            return Calling { up, down };
        }
        up.format();
        down.format();
        Calling { up, down }
    }

    // Do both lanes have slots?
    fn is_steady(&self) -> bool
        ensures { result ≡ (meaning self.now).steady }
    {
        self.up.slots() > 0 && self.down.slots() > 0
    }
}

impl<'m, 'n> Carrier for Calling<'m, 'n> {
    ghost lanes = { λ s. meaning s };

    ghost slots = { some_slots };

    fn place(&mut self, lane: Lane, message: &[u8]) -> Result<(), PlaceRefusal>
        ensures carries { Placed lane message.now (meaning self.old) (meaning self.new) result }
        ensures unsteady { (meaning self.old).steady ≡ false
            → TakesNothing message.now self.old self.new result }
    {
        let message = Sendable::try_from(message)?;
        if !self.is_steady() {
            return Err(PlaceRefusal::Full);
        }
        match lane {
            Lane::Up => self.up.place(message),
            Lane::Down => self.down.place(message),
        }
    }

    fn fetch(&mut self, lane: Lane, buffer: &mut [u8]) -> Result<Option<usize>, FetchRefusal>
        ensures carries { Fetched lane (meaning self.old) (meaning self.new) buffer.old buffer.new result }
        ensures unsteady { (meaning self.old).steady ≡ false
            → BringsNothing buffer.old buffer.new self.old self.new result }
    {
        if buffer.len() < LONGEST {
            return Err(FetchRefusal::ShortBuffer);
        }
        if !self.is_steady() {
            return Ok(None);
        }
        Ok(match lane {
            Lane::Up => self.up.fetch(buffer),
            Lane::Down => self.down.fetch(buffer),
        })
    }
}
