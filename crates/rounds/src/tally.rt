use consumer::event::Event;
use std::fmt;

// What the cycles of a run answered.
#[derive(Clone, Copy, Default)]
pub struct Tally {
    pub cycles: u32,
    accepted: u32,
    checksum: u32,
}

impl Tally {
    // Counts a cycle that answered this event and showed a record with this sample.
    pub fn take(&mut self, event: Event, sample: u32) {
        self.cycles = self.cycles.wrapping_add(1);
        if let Event::Accepted = event {
            self.accepted = self.accepted.wrapping_add(1);
        }
        self.checksum = self.checksum.wrapping_mul(31).wrapping_add(sample);
    }
}

impl fmt::Display for Tally {
    fn fmt<W: fmt::Write>(&self, f: &mut fmt::Formatter<W>) -> fmt::Result {
        let cycles = self.cycles;
        let accepted = self.accepted;
        let checksum = self.checksum;
        write!(
            f,
            "{cycles} cycles, {accepted} accepted, checksum {checksum:08X}"
        )
    }
}
