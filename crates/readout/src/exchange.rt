use crate::layout::LENGTH;
use message::parameters::Parameters;
use message::request::Request;
use record::meter::Meter;

// A request and the response with a reading to it.
#[derive(Clone, Copy)]
pub struct Exchange {
    pub parameters: Parameters,
    pub request: Request,
    pub reading: Meter,
    pub message: [u8; LENGTH],
}
