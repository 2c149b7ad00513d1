ghost use Rattle.std.specs.Prelude.{◌≡◌, Some, None};
ghost use Rattle.carrier.specs.Cells.{held, kept_after, shown, shown_in};
ghost use Rattle.carrier.specs.Fetch.{length_of};

use crate::cell::Cell;
use crate::sendable::Sendable;
use message::response::LONGEST;

impl Cell {
    pub fn empty() -> Cell
        ensures { held result ≡ None }
    {
        Cell {
            octets: [0; LONGEST],
            size: 0,
        }
    }

    // Holds a message in the place of the one before.
    pub(crate) fn hold(&mut self, message: Sendable)
        ensures { held self.new ≡ Some message.entry.octets.now }
    {
        let octets = message.octets();
        let size = octets.len();
        self.octets[0..size].copy_from_slice(octets);
        self.size = size;
    }

    // Holds octets that are a message; of no octets or over 1,525 none are held, and nothing changes.
    pub fn keep(&mut self, message: &[u8])
        ensures { held self.new ≡ kept_after (held self.old) message.now }
    {
        if let Ok(message) = Sendable::try_from(message) {
            self.hold(message);
        }
    }

    // Writes the message to the start of a buffer of at least 1,525 octets; into a shorter one nothing.
    pub fn show(&self, buffer: &mut [u8]) -> Option<usize>
        ensures answer { result ≡ length_of (shown (held self.now) buffer.old) }
        ensures buffer { buffer.new ≡ shown_in (held self.now) buffer.old }
    {
        if self.size == 0 || buffer.len() < LONGEST {
            return None;
        }
        let size = self.size;
        buffer[0..size].copy_from_slice(&self.octets[0..size]);
        Some(size)
    }
}
