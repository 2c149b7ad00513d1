// The provider: it answers requests with the record that its program gives it.
#![tactic(auto)]

pub mod answer;
pub mod provider;
