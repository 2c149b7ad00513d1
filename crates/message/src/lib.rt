// Messages between the two ends of a link: what they are made of, how they are built and how they are judged.
#![tactic(auto)]

pub mod check;
pub mod fault;
pub mod flags;
pub mod identity;
pub mod loopback;
pub mod making;
pub mod number;
pub mod parameters;
pub mod request;
pub mod response;
pub mod sound;
mod words;
