ghost use Rattle.std.specs.Prelude.{◌≡◌};
ghost use Rattle.record.specs.Calls.{encoded, decoded, reread_answer, recoded, rewritten};
ghost use Rattle.record.specs.Numbers.{trip_number};
ghost use Rattle.record.specs.declared.round_trip.TripFault.TheVariants.{Encode, Decode};

use crate::fault::{EncodeRefusal, RecordFault};
use crate::kind::RecordKind;

// Why a record did not go into octets and back, or octets into a record and back.
#[derive(Clone, Copy, Debug, PartialEq, Eq)]
pub enum TripFault {
    Encode(EncodeRefusal),
    Decode(RecordFault),
}

impl TripFault {
    // The number of the refusal or fault inside, where it has one.
    pub fn number(&self) -> Option<u8>
        ensures { result ≡ trip_number self.now }
    {
        match self {
            TripFault::Encode(refusal) => refusal.number(),
            TripFault::Decode(fault) => Some(fault.number()),
        }
    }
}

impl From<EncodeRefusal> for TripFault {
    ghost from_gives = { λ e r. r ≡ Encode e };

    fn from(e: EncodeRefusal) -> TripFault {
        TripFault::Encode(e)
    }
}

impl From<RecordFault> for TripFault {
    ghost from_gives = { λ e r. r ≡ Decode e };

    fn from(e: RecordFault) -> TripFault {
        TripFault::Decode(e)
    }
}

// A record into octets and back: of every kind, what was encoded decodes to the record.
pub fn reread<K: RecordKind>(given: K, out: &mut [u8]) -> Result<K, TripFault>
    ensures answer { result ≡ reread_answer K.RecordKind.format given out.old }
    ensures written { out.new ≡ encoded K.RecordKind.format given out.old }
{
    given.encode(out)?;
    let back = K::decode(&out[0..K::LENGTH])?;
    Ok(back)
}

// Octets into a record and back: of every kind, octets that decode encode to the same octets.
#[tactic(auto, using(crate::proofs::Trips::rewrites))]
pub fn rewrite<K: RecordKind>(octets: &[u8], out: &mut [u8]) -> Result<K, TripFault>
    ensures answer { result ≡ recoded K.RecordKind.format octets.now out.old }
    ensures written { out.new ≡ rewritten K.RecordKind.format octets.now out.old }
{
    let back = K::decode(octets)?;
    back.encode(out)?;
    Ok(back)
}
