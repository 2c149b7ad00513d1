ghost use Rattle.std.specs.Prelude.{◌≡◌, ◌≤◌};
ghost use Rattle.message.specs.Check.{judged, checked, record_read};

use crate::fault::MessageFault;
use crate::flags::ResponseFlags;
use crate::identity::Identities;
use crate::parameters::Parameters;
use crate::words::u32_at;
use record::kind::RecordKind;
use signature::signature;

// What a response that passed its checks says beside its record.
#[derive(Clone, Copy, Debug, PartialEq, Eq)]
pub struct Checked {
    pub monitoring_number: u32,
    pub flags: ResponseFlags,
}

// Judges a message that should be a response with a record of `size` octets.
fn judge(
    message: &[u8],
    size: usize,
    identities: Identities,
    consumer_id: u32,
) -> Result<Checked, MessageFault>
    requires { size ≤ 1500 }
    ensures { result ≡ judged message.now size identities consumer_id }
{
    if message.len() != size + 25 {
        return Err(MessageFault::Length);
    }
    if u32_at(message, size + 21) != signature(&message[0..size + 21]) {
        return Err(MessageFault::Signature { place: size + 21 });
    }
    // three tests: a loop over the identity numbers takes as many lines, and an invariant written by hand besides
    if u32_at(message, size + 1) != identities.first {
        return Err(MessageFault::Identity { place: size + 1 });
    }
    if u32_at(message, size + 5) != identities.second {
        return Err(MessageFault::Identity { place: size + 5 });
    }
    if u32_at(message, size + 9) != identities.third {
        return Err(MessageFault::Identity { place: size + 9 });
    }
    if u32_at(message, size + 13) != consumer_id {
        return Err(MessageFault::Consumer { place: size + 13 });
    }
    Ok(Checked {
        monitoring_number: u32_at(message, size + 17),
        flags: ResponseFlags::from(message[size]),
    })
}

// Is the message a response to this consumer, of its provider, with a record of kind K? The first check that fails is
// told: length, signature, the three identity numbers, consumer number.
pub fn check<K: RecordKind>(
    parameters: &Parameters,
    message: &[u8],
) -> Result<Checked, MessageFault>
    ensures { result ≡ checked K.RecordKind.format parameters.now message.now }
{
    judge(
        message,
        K::LENGTH,
        Identities::of::<K>(parameters),
        parameters.consumer_id,
    )
}

// The record of a response. A consumer reads it only after it has judged the monitoring number.
pub fn read_record<K: RecordKind>(message: &[u8]) -> Result<K, MessageFault>
    ensures { result ≡ record_read K.RecordKind.format message.now }
{
    let size = K::LENGTH;
    if message.len() != size + 25 {
        return Err(MessageFault::Length);
    }
    Ok(K::decode(&message[0..size])?)
}
