// Tests of lines and answers on examples: every bad line, the limits of numbers, and what is printed.
#![tactic(auto)]

pub mod alarm;
#[cfg(test)]
mod amounts;
#[cfg(test)]
mod bad_lines;
#[cfg(test)]
mod good_lines;
#[cfg(test)]
mod printing;
