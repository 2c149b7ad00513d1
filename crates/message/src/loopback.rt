ghost use Rattle.std.specs.Prelude.{◌≡◌};
ghost use Rattle.message.specs.Loopback.{loopback_answer, loopback_number};
ghost use Rattle.message.specs.Response.{built};
ghost use Rattle.message.specs.declared.loopback.LoopbackFault.TheVariants.{Build, Judge};

use crate::check::{Checked, check, read_record};
use crate::fault::MessageFault;
use crate::parameters::Parameters;
use crate::response::{BuildRefusal, Response};
use record::kind::RecordKind;

// Why a response did not come back: it was not built, or not accepted.
#[derive(Clone, Copy, Debug, PartialEq, Eq)]
pub enum LoopbackFault {
    Build(BuildRefusal),
    Judge(MessageFault),
}

impl LoopbackFault {
    // The number that the rules of the link give it.
    pub fn number(&self) -> u8
        ensures { result ≡ loopback_number self.now }
    {
        match self {
            LoopbackFault::Build(refusal) => refusal.number(),
            LoopbackFault::Judge(fault) => fault.number(),
        }
    }
}

impl From<BuildRefusal> for LoopbackFault {
    ghost from_gives = { λ e r. r ≡ Build e };

    fn from(e: BuildRefusal) -> LoopbackFault {
        LoopbackFault::Build(e)
    }
}

impl From<MessageFault> for LoopbackFault {
    ghost from_gives = { λ e r. r ≡ Judge e };

    fn from(e: MessageFault) -> LoopbackFault {
        LoopbackFault::Judge(e)
    }
}

// What came back of a response.
#[derive(Clone, Copy)]
pub struct Returned<K> {
    pub safety_data: K,
    pub checked: Checked,
}

// Builds a response as a provider does and judges it as a consumer does. Of every kind, what is built from a sound
// record for this consumer passes every check and gives that record, those flags and that number back.
pub fn loopback<K: RecordKind>(
    parameters: &Parameters,
    response: Response<K>,
    buffer: &mut [u8],
) -> Result<Returned<K>, LoopbackFault>
    ensures answer { result ≡ loopback_answer K.RecordKind.format parameters.now response buffer.old }
    ensures written { buffer.new ≡ built K.RecordKind.format parameters.now response buffer.old }
{
    let end = response.build(parameters, buffer)?;
    let checked = check::<K>(parameters, &buffer[0..end])?;
    let safety_data = read_record::<K>(&buffer[0..end])?;
    Ok(Returned {
        safety_data,
        checked,
    })
}
