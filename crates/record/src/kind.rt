ghost use Rattle.std.specs.Prelude.{◌≡◌, ℕ};
ghost use Rattle.record.specs.Kind.{Format, Lawful};
ghost use Rattle.record.specs.Calls.{encode_answer, encoded, decoded};

use crate::fault::{EncodeRefusal, RecordFault};

// A record kind: the type of its records, and their octets. The format says what the kind means, and the laws what every
// kind keeps. A clause reads a constant by the ghost member of its name.
pub trait RecordKind: Copy {
    // how many octets a record has
    const LENGTH: usize;
    // the number by which both ends know that they speak of the same kind
    const STRUCTURE_SIGNATURE: u32;

    ghost LENGTH: { ℕ };

    ghost STRUCTURE_SIGNATURE: { ℕ };

    ghost format: { Format Self };

    // The record that is shown where there is no process value to show.
    fn substitute() -> Self
        ensures { result ≡ format.substitute };

    // Can the record be sent?
    fn is_sound(&self) -> bool
        ensures { result ≡ format.sound self.now };

    // Writes a sound record at the start of a slice and leaves the rest; else it refuses and leaves all.
    fn encode(&self, out: &mut [u8]) -> Result<(), EncodeRefusal>
        ensures answer { result ≡ encode_answer format self.now out.old }
        ensures written { out.new ≡ encoded format self.now out.old };

    // Reads a record of octets that are just as many as the kind has.
    fn decode(octets: &[u8]) -> Result<Self, RecordFault>
        ensures { result ≡ decoded format octets.now };

    ghost lawful: { Lawful format };

    ghost length_is: { LENGTH ≡ format.len };

    ghost structure_is: { STRUCTURE_SIGNATURE ≡ format.structure };
}
