ghost use Rattle.std.specs.Prelude.{◌≡◌, ◌≤◌, true, false, length, MatchResult};
ghost use Rattle.carrier.specs.Place.{sendable};
ghost use Rattle.carrier.specs.declared.lane.PlaceRefusal.TheVariants.{Length};
ghost use Rattle.message.specs.Response.{longest};

use crate::lane::PlaceRefusal;
use message::response::LONGEST;

// The octets of a message that a carrier takes: from 1 to 1,525.
#[derive(Clone, Copy)]
pub struct Sendable<'a> {
    octets: &'a [u8],
    ghost some: { 1 ≤ length octets.now },
    ghost fits: { length octets.now ≤ longest },
}

impl<'a> TryFrom<&'a [u8]> for Sendable<'a> {
    type Error = PlaceRefusal;

    ghost try_from_gives = { λ octets r. MatchResult r (λ m. (m.octets ≡ octets) × (sendable octets.now ≡ true))
        (λ e. (e ≡ Length) × (sendable octets.now ≡ false)) };

    fn try_from(octets: &'a [u8]) -> Result<Sendable<'a>, PlaceRefusal> {
        if octets.is_empty() || octets.len() > LONGEST {
            return Err(PlaceRefusal::Length);
        }
        Ok(Sendable { octets })
    }
}

impl<'a> Sendable<'a> {
    pub fn octets(&self) -> &'a [u8]
        ensures same { result ≡ self.now.octets }
        ensures some { 1 ≤ length result.now }
        ensures fits { length result.now ≤ longest }
    {
        self.octets
    }
}
