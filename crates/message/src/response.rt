ghost use Rattle.std.specs.Prelude.{◌≡◌, ◌+◌, ◌≤◌, ◌++◌, length, take, drop};
ghost use Rattle.message.specs.Flags.{response_octet};
ghost use Rattle.message.specs.Response.{build_answer, built, build_number, refused_encoding, with_signature, trailer};

use crate::flags::ResponseFlags;
use crate::identity::Identities;
use crate::parameters::Parameters;
use crate::words::put_u32;
use record::fault::EncodeRefusal;
use record::kind::RecordKind;
use signature::signature;

// No message is longer, and a buffer has at least so many octets.
pub const LONGEST: usize = 1525;

// What a provider answers to a request.
#[derive(Clone, Copy)]
pub struct Response<K> {
    pub safety_data: K,
    pub flags: ResponseFlags,
    pub consumer_id: u32,
    pub monitoring_number: u32,
}

// Why a response was not built.
#[derive(Clone, Copy, Debug, PartialEq, Eq)]
pub enum BuildRefusal {
    ShortBuffer,
    UnsoundRecord,
}

impl BuildRefusal {
    // The number that the rules of the link give it.
    pub fn number(&self) -> u8
        ensures { result ≡ build_number self.now }
    {
        match self {
            BuildRefusal::ShortBuffer => 7,
            BuildRefusal::UnsoundRecord => 8,
        }
    }
}

impl From<EncodeRefusal> for BuildRefusal {
    ghost from_gives = { λ e r. r ≡ refused_encoding e };

    fn from(e: EncodeRefusal) -> BuildRefusal {
        match e {
            EncodeRefusal::Short => BuildRefusal::ShortBuffer,
            EncodeRefusal::Unsound => BuildRefusal::UnsoundRecord,
        }
    }
}

impl<K> Response<K> {
    // Writes what follows a record of `size` octets at the start of a buffer, and signs it.
    fn finish(&self, identities: Identities, size: usize, buffer: &mut [u8])
        requires { size + 25 ≤ length buffer.old }
        ensures { buffer.new
            ≡ with_signature (take size buffer.old
            ++ trailer (response_octet self.now.flags) identities self.now.consumer_id self.now.monitoring_number)
            ++ drop (size + 25) buffer.old }
    {
        buffer[size] = u8::from(self.flags);
        put_u32(buffer, size + 1, identities.first);
        put_u32(buffer, size + 5, identities.second);
        put_u32(buffer, size + 9, identities.third);
        put_u32(buffer, size + 13, self.consumer_id);
        put_u32(buffer, size + 17, self.monitoring_number);
        let signature = signature(&buffer[0..size + 21]);
        put_u32(buffer, size + 21, signature);
    }
}

impl<K: RecordKind> Response<K> {
    // Builds the response at the start of a buffer and leaves the rest; answers how many octets it has.
    pub fn build(&self, parameters: &Parameters, buffer: &mut [u8]) -> Result<usize, BuildRefusal>
        ensures answer { result ≡ build_answer K.RecordKind.format self.now buffer.old }
        ensures written { buffer.new ≡ built K.RecordKind.format parameters.now self.now buffer.old }
    {
        if buffer.len() < LONGEST {
            return Err(BuildRefusal::ShortBuffer);
        }
        self.safety_data.encode(buffer)?;
        let size = K::LENGTH;
        self.finish(Identities::of::<K>(parameters), size, buffer);
        Ok(size + 25)
    }
}
