// Tests of records and messages on examples: every limit, every refusal and every fault.
#![tactic(auto)]

#[cfg(test)]
mod building;
#[cfg(test)]
mod common;
#[cfg(test)]
mod judging;
#[cfg(test)]
mod limits;
#[cfg(test)]
mod records;
#[cfg(test)]
mod requests;
#[cfg(test)]
mod soundness;
