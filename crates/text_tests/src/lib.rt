// Tests of numbers and octets as text: every limit, and what is none.
#![tactic(auto)]

#[cfg(test)]
mod numbers;
#[cfg(test)]
mod octets;
