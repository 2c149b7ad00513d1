ghost use Rattle.std.specs.Prelude.{◌≡◌, refl, true, length, ◌==◌};
ghost use Rattle.rounds.specs.Blocks.{block_format, octets_fit};
ghost use Rattle.rounds.specs.BlocksLemmas.{block_lawful};

use record::fault::{EncodeRefusal, RecordFault};
use record::kind::RecordKind;
use record::octets::whole;

// The longest record that a link carries: 1,500 octets, of which each may be any octet.
#[derive(Clone, Copy)]
pub struct Block {
    pub octets: [u8; 1500],
}

// Are these as many octets as a block has?
fn fit(octets: &[u8]) -> bool
    ensures meaning { result ≡ octets_fit octets.now }
    ensures counted { result ≡ (length octets.now == 1500) }
{
    octets.len() == 1500
}

impl RecordKind for Block {
    const LENGTH: usize = 1500;

    const STRUCTURE_SIGNATURE: u32 = 0x424C_4F43;

    ghost LENGTH = { block_format.len };

    ghost STRUCTURE_SIGNATURE = { block_format.structure };

    ghost format = { block_format };

    ghost lawful = { block_lawful };

    ghost length_is = { refl };

    ghost structure_is = { refl };

    fn substitute() -> Block {
        Block { octets: [0; 1500] }
    }

    // Every block is sound.
    fn is_sound(&self) -> bool
        ensures meaning { result ≡ block_format.sound self.now }
        ensures always { result ≡ true }
    {
        fit(&self.octets)
    }

    fn encode(&self, out: &mut [u8]) -> Result<(), EncodeRefusal> {
        let out = out.first_chunk_mut().ok_or(EncodeRefusal::Short)?;
        if !self.is_sound() {
            return Err(EncodeRefusal::Unsound);
        }
        *out = self.octets;
        Ok(())
    }

    fn decode(octets: &[u8]) -> Result<Block, RecordFault> {
        let octets = *whole(octets)?;
        Ok(Block { octets })
    }
}
