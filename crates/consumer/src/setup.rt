use crate::start::StartNumber;
use message::parameters::Parameters;

// What a consumer is made with.
#[derive(Clone, Copy)]
pub struct Setup {
    pub parameters: Parameters,
    pub start: StartNumber,
}
