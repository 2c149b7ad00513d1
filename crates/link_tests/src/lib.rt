// Tests of links on examples: every refusal, fault and ignored message, serves, expiry, holds and acknowledgment.
#![tactic(auto)]

#[cfg(test)]
mod bench;
#[cfg(test)]
mod common;
#[cfg(test)]
mod expiring;
#[cfg(test)]
mod holding;
#[cfg(test)]
mod judging;
#[cfg(test)]
mod refusals;
#[cfg(test)]
mod serving;
#[cfg(test)]
mod steps;
