ghost use Rattle.std.specs.Prelude.{◌≡◌, ◌-◌, min};

use std::time::Duration;

// A span in nanoseconds.
pub fn nanoseconds(span: Duration) -> u64 {
    span.as_secs()
        .saturating_mul(1_000_000_000)
        .saturating_add(u64::from(span.subsec_nanos()))
}

// Nanoseconds of the cycles of a batch, of its serves, and of reading the clock alone. The clock is read once within each
// of these spans.
#[derive(Clone, Copy, Default)]
pub struct Shares {
    cycles: u64,
    serves: u64,
    readings: u64,
}

impl Shares {
    // More than any batch takes.
    pub fn most() -> Shares {
        Shares {
            cycles: u64::MAX,
            serves: u64::MAX,
            readings: u64::MAX,
        }
    }

    pub fn add(&mut self, cycle: Duration, serve: Duration, reading: Duration) {
        self.cycles = self.cycles.saturating_add(nanoseconds(cycle));
        self.serves = self.serves.saturating_add(nanoseconds(serve));
        self.readings = self.readings.saturating_add(nanoseconds(reading));
    }

    // The smaller of each. A line for each of the three: a closure over them wants the three clauses once more.
    pub fn least(self, other: Shares) -> Shares
        ensures cycles { result.cycles ≡ min self.cycles other.cycles }
        ensures serves { result.serves ≡ min self.serves other.serves }
        ensures readings { result.readings ≡ min self.readings other.readings }
    {
        Shares {
            cycles: self.cycles.min(other.cycles),
            serves: self.serves.min(other.serves),
            readings: self.readings.min(other.readings),
        }
    }

    // The cycles without the clock.
    pub fn cycles(&self) -> u64
        ensures { result ≡ self.now.cycles - self.now.readings }
    {
        self.cycles.saturating_sub(self.readings)
    }

    // The serves without the clock.
    pub fn serves(&self) -> u64
        ensures { result ≡ self.now.serves - self.now.readings }
    {
        self.serves.saturating_sub(self.readings)
    }
}
