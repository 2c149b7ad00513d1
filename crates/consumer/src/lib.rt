// The consumer: it asks its provider, judges what comes, and shows a record or the fail-safe substitute.
#![tactic(auto)]

pub mod consumer;
pub mod event;
pub mod fault;
pub mod inputs;
pub mod making;
pub mod settling;
pub mod setup;
pub mod showing;
pub mod start;
pub mod state;
