// A provider and a consumer over a carrier, and what holds of every run of the two.
#![tactic(auto)]

pub mod examples;
pub mod laws;
pub mod link;
