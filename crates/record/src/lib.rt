// Record kinds: what a meter and a draw record are, and how each becomes octets and is read again.
#![tactic(auto)]

pub mod draw;
pub mod fault;
pub mod kind;
pub mod meter;
pub mod octets;
pub mod round_trip;
