ghost use Rattle.std.specs.Prelude.{◌≡◌, ◌^◌, ◌<◌, ◌≤◌, true, ◌||◌, nat_eq};

// The base identifier of a provider, as four words.
#[derive(Clone, Copy)]
pub struct BaseId {
    pub w1: u32,
    pub w2: u32,
    pub w3: u32,
    pub w4: u32,
    ghost w1_fits: { w1 < 2 ^ 32 },
    ghost w2_fits: { w2 < 2 ^ 32 },
    ghost w3_fits: { w3 < 2 ^ 32 },
    ghost w4_fits: { w4 < 2 ^ 32 },
}

// What both ends of a link are made with. No set that exists lies outside the limits that are stated here.
#[derive(Clone, Copy)]
pub struct Parameters {
    pub consumer_id: u32,
    pub provider_id: u32,
    pub base_id: BaseId,
    // the integrity level of the provider, 1 to 4
    pub level: u8,
    // how many milliseconds a request may wait for its response
    pub timeout: u32,
    // in how many minutes a second fault counts as a repeated one
    pub error_interval: u16,
    // must an operator acknowledge after a request has expired?
    pub operator_ack_necessary: bool,
    ghost consumer_fits: { consumer_id < 2 ^ 32 },
    ghost provider_fits: { provider_id < 2 ^ 32 },
    ghost level_least: { 1 ≤ level },
    ghost level_most: { level ≤ 4 },
    ghost timeout_least: { 1 ≤ timeout },
    ghost timeout_most: { timeout ≤ 3600000 },
    ghost interval_known: { (nat_eq error_interval 6 || (nat_eq error_interval 60 || nat_eq error_interval 600)) ≡ true },
}
