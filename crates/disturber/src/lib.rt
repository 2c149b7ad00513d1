// A layer over any carrier that disturbs its down lane by a script: it passes, loses, repeats or damages what comes.
#![tactic(auto)]

ghost use Rattle.std.specs.Prelude.{◌≡◌};
ghost use Rattle.carrier.specs.Fetch.{Fetched};
ghost use Rattle.carrier.specs.Place.{Placed};
ghost use Rattle.disturber.specs.declared.disturbance.Disturbance.TheVariants.{Pass, Lose, Repeat, Flip};
ghost use Rattle.disturber.specs.Disturbing.{lanes_over, Acted, FetchedThrough};
ghost use Rattle.disturber.specs.DisturbingLemmas.{slots_over};

mod disturbance;
pub mod filling;
pub mod script;

use carrier::Carrier;
use carrier::lane::{FetchRefusal, Lane, PlaceRefusal};
use disturbance::Disturbance;
use message::response::LONGEST;
use message::sound::is_sound;
use script::Script;

// A carrier over another. Each down fetch uses one code of the script, and after the last it passes.
#[derive(Drop)]
pub struct Disturber<C> {
    below: C,
    script: Script,
}

impl<C> Disturber<C> {
    pub fn new(below: C, script: Script) -> Disturber<C>
        ensures below { result.below ≡ below }
        ensures script { result.script ≡ script }
    {
        Disturber { below, script }
    }
}

impl<C: Carrier> Disturber<C> {
    // Hands out what the carrier below brings, and keeps it if it is sound.
    fn pass(&mut self, buffer: &mut [u8; LONGEST]) -> Option<usize>
        ensures { Acted C.Carrier.lanes Pass self.old self.new buffer.old buffer.new result }
    {
        let Ok(Some(n)) = self.below.fetch(Lane::Down, buffer) else {
            return None;
        };
        if is_sound(&buffer[0..n]) {
            self.script.kept.keep(&buffer[0..n]);
        }
        Some(n)
    }

    // Hands out nothing of what the carrier below brings.
    fn lose(&mut self, buffer: &mut [u8; LONGEST]) -> Option<usize>
        ensures { Acted C.Carrier.lanes Lose self.old self.new buffer.old buffer.new result }
    {
        let mut scratch = [0; LONGEST];
        let _ = self.below.fetch(Lane::Down, &mut scratch);
        None
    }

    // Hands out the kept message.
    fn repeat(&mut self, buffer: &mut [u8; LONGEST]) -> Option<usize>
        ensures { Acted C.Carrier.lanes Repeat self.old self.new buffer.old buffer.new result }
    {
        self.script.kept.show(buffer)
    }

    // Hands out what the carrier below brings with its last bit flipped, but nothing that is sound.
    fn flip(&mut self, buffer: &mut [u8; LONGEST]) -> Option<usize>
        ensures { Acted C.Carrier.lanes Flip self.old self.new buffer.old buffer.new result }
    {
        let mut scratch = [0; LONGEST];
        let Ok(Some(n)) = self.below.fetch(Lane::Down, &mut scratch) else {
            return None;
        };
        scratch[n - 1] ^= 1;
        if is_sound(&scratch[0..n]) {
            return None;
        }
        buffer[0..n].copy_from_slice(&scratch[0..n]);
        Some(n)
    }

    // Does to a down fetch what the script has for it.
    fn disturb(&mut self, disturbance: Disturbance, buffer: &mut [u8; LONGEST]) -> Option<usize>
        ensures { Acted C.Carrier.lanes disturbance self.old self.new buffer.old buffer.new result }
    {
        match disturbance {
            Disturbance::Pass => self.pass(buffer),
            Disturbance::Lose => self.lose(buffer),
            Disturbance::Repeat => self.repeat(buffer),
            Disturbance::Flip => self.flip(buffer),
        }
    }
}

impl<C: Carrier> Carrier for Disturber<C> {
    ghost lanes = { λ s. lanes_over C.Carrier.lanes s };

    ghost slots = { slots_over C.Carrier.lanes C.Carrier.slots };

    fn place(&mut self, lane: Lane, message: &[u8]) -> Result<(), PlaceRefusal>
        ensures carries { Placed lane message.now (lanes_over C.Carrier.lanes self.old)
            (lanes_over C.Carrier.lanes self.new) result }
        ensures below { Placed lane message.now (C.Carrier.lanes self.old.below)
            (C.Carrier.lanes self.new.below) result }
        ensures script { self.new.script ≡ self.old.script }
    {
        self.below.place(lane, message)
    }

    fn fetch(&mut self, lane: Lane, buffer: &mut [u8]) -> Result<Option<usize>, FetchRefusal>
        ensures carries { Fetched lane (lanes_over C.Carrier.lanes self.old) (lanes_over C.Carrier.lanes self.new)
            buffer.old buffer.new result }
        ensures disturbs { FetchedThrough C.Carrier.lanes lane self.old self.new buffer.old buffer.new result }
    {
        if let Lane::Up = lane {
            return self.below.fetch(Lane::Up, buffer);
        }
        let Some(front) = buffer.first_chunk_mut::<LONGEST>() else {
            return Err(FetchRefusal::ShortBuffer);
        };
        let disturbance = self.script.advance();
        Ok(self.disturb(disturbance, front))
    }
}
