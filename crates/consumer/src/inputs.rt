// What a program gives to a cycle.
#[derive(Clone, Copy, Debug, PartialEq, Eq)]
pub struct Inputs {
    // the clock, in milliseconds
    pub reading: u64,
    // off: the cycle blanks, and asks for nothing
    pub enable: bool,
    // the operator's acknowledgment
    pub ack: bool,
}
