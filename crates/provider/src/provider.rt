ghost use Rattle.std.specs.Prelude.{◌≡◌, true, None};
ghost use Rattle.provider.specs.Serve.{response_to, told_of};
ghost use Rattle.provider.specs.Served.{Served};

use crate::answer::{ServeAnswer, ServeRefusal};
use carrier::Carrier;
use carrier::lane::Lane;
use message::flags::ResponseFlags;
use message::parameters::Parameters;
use message::request::Request;
use message::response::{LONGEST, Response};
use record::kind::RecordKind;

// A provider of records of kind K.
#[derive(Drop)]
pub struct Provider<K> {
    parameters: Parameters,
    // the response that went out last
    memory: Option<Response<K>>,
}

impl<K: RecordKind> Provider<K> {
    // A provider that has answered nothing yet.
    pub fn new(parameters: Parameters) -> Provider<K>
        ensures parameters { result.parameters ≡ parameters }
        ensures memory { result.memory ≡ None }
    {
        Provider {
            parameters,
            memory: None,
        }
    }

    // The response to a request, and whether it is new or goes out again.
    fn respond(
        &self,
        given: K,
        flags: ResponseFlags,
        request: Request,
    ) -> (Response<K>, ServeAnswer)
        requires { K.RecordKind.format.sound given ≡ true }
        ensures sound { K.RecordKind.format.sound result.0.safety_data ≡ true }
        ensures response { result.0 ≡ response_to K.RecordKind.format self.now.memory given flags request }
        ensures told { result.1 ≡ told_of K.RecordKind.format self.now.memory request }
    {
        let new = Response {
            safety_data: given,
            flags,
            consumer_id: request.consumer_id,
            monitoring_number: request.monitoring_number,
        };
        match self.memory {
            Some(last)
                if last.safety_data.is_sound()
                    && last.consumer_id == request.consumer_id
                    && last.monitoring_number == request.monitoring_number => {
                (last, ServeAnswer::Again(request))
            }
            _ => (new, ServeAnswer::New(request)),
        }
    }

    // Fetches once from the up lane and answers a request: what went out last goes out again to the same request, else
    // the given record and flags. The two stay apart: no call can swap them, and each would have to write a struct's name.
    pub fn serve<C: Carrier>(
        &mut self,
        carrier: &mut C,
        given: K,
        flags: ResponseFlags,
        buffer: &mut [u8],
    ) -> Result<ServeAnswer, ServeRefusal>
        ensures parameters { self.new.parameters ≡ self.old.parameters }
        ensures served { Served K.RecordKind.format self.old.parameters self.old.memory given flags
            (C.Carrier.lanes carrier.old) buffer.old self.new.memory
            (C.Carrier.lanes carrier.new) buffer.new result }
    {
        if buffer.len() < LONGEST {
            return Err(ServeRefusal::ShortBuffer);
        }
        if !given.is_sound() {
            return Err(ServeRefusal::UnsoundRecord);
        }
        let Some(size) = carrier.fetch(Lane::Up, buffer)? else {
            return Ok(ServeAnswer::Idle);
        };
        let Some(request) = Request::read(&buffer[0..size]) else {
            return Err(ServeRefusal::NotARequest);
        };
        let (response, told) = self.respond(given, flags, request);
        self.memory = Some(response);
        let end = response.build(&self.parameters, buffer)?;
        // a match: a response has a lawful length, so what refuses it is a full lane, whatever the refusal says
        match carrier.place(Lane::Down, &buffer[0..end]) {
            Ok(()) => Ok(told),
            Err(_) => Err(ServeRefusal::Full),
        }
    }
}
