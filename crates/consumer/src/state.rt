use message::request::Request;

// A request and the time of the cycle that made it.
#[derive(Clone, Copy)]
pub struct TimedRequest {
    pub request: Request,
    pub time: u64,
}

// What a cycle shows. By the mark `fsv_activated` the record is the substitute, else process values. The mark stands beside the
// record, as the standard has it, since there is a record to show under either.
#[derive(Clone, Copy, Debug, PartialEq, Eq)]
pub struct Shown<K> {
    pub safety_data: K,
    // the mark: fail-safe substitute values are shown
    pub fsv_activated: bool,
    // the wish for an operator's acknowledgment
    pub operator_ack_requested: bool,
    // copied from the provider
    pub operator_ack_provider: bool,
    pub test_mode_activated: bool,
}

// What a consumer remembers from cycle to cycle.
#[derive(Clone, Copy)]
pub struct State<K> {
    pub shown: Shown<K>,
    // the request that waits for its response
    pub standing: Option<TimedRequest>,
    // the request that stood when a response was last accepted
    pub accepted: Option<TimedRequest>,
    // the monitoring number of the next request
    pub next_number: u32,
    // the time of the cycle before
    pub time: Option<u64>,
    // the acknowledgment input in the cycle before
    pub input: bool,
    // substitutes are shown until an acknowledgment edge
    pub hold: bool,
    // the time of the last fault
    pub fault_time: Option<u64>,
    // a fault or an expiry came since the last request
    pub error: bool,
}
