ghost use Rattle.std.specs.Prelude.{◌≡◌};
ghost use Rattle.message.specs.Making.{Made, parameter_number};

use crate::parameters::{BaseId, Parameters};

// Which of the parameters lies outside its limits: the first of those that do.
#[derive(Clone, Copy, Debug, PartialEq, Eq)]
pub enum ParameterRefusal {
    Level,
    Timeout,
    ErrorInterval,
}

impl ParameterRefusal {
    // The number that the rules of the link give it.
    pub fn number(&self) -> u8
        ensures { result ≡ parameter_number self.now }
    {
        match self {
            ParameterRefusal::Level => 1,
            ParameterRefusal::Timeout => 2,
            ParameterRefusal::ErrorInterval => 3,
        }
    }
}

impl BaseId {
    pub fn new(w1: u32, w2: u32, w3: u32, w4: u32) -> BaseId
        ensures first { result.w1 ≡ w1 }
        ensures second { result.w2 ≡ w2 }
        ensures third { result.w3 ≡ w3 }
        ensures fourth { result.w4 ≡ w4 }
    {
        BaseId { w1, w2, w3, w4 }
    }
}

// What a parameter set is made from, not yet held to its limits.
#[derive(Clone, Copy)]
pub struct Settings {
    pub consumer_id: u32,
    pub provider_id: u32,
    pub base_id: BaseId,
    pub level: u8,
    pub timeout: u32,
    pub error_interval: u16,
    pub operator_ack_necessary: bool,
}

impl Parameters {
    // The set of these settings, or the first limit that one of them passes.
    pub fn new(settings: Settings) -> Result<Parameters, ParameterRefusal>
        ensures { Made settings result }
    {
        let Settings {
            consumer_id,
            provider_id,
            base_id,
            level,
            timeout,
            error_interval,
            operator_ack_necessary,
        } = settings;
        if !(1..=4).contains(&level) {
            return Err(ParameterRefusal::Level);
        }
        if !(1..=3_600_000).contains(&timeout) {
            return Err(ParameterRefusal::Timeout);
        }
        if !matches!(error_interval, 6 | 60 | 600) {
            return Err(ParameterRefusal::ErrorInterval);
        }
        // field by field: `..` takes the rest from another `Parameters` only, and there is none yet
        Ok(Parameters {
            consumer_id,
            provider_id,
            base_id,
            level,
            timeout,
            error_interval,
            operator_ack_necessary,
        })
    }
}
