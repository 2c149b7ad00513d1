// Tests of carriers on examples: lanes that fill and wrap, every refusal, and every code of a disturber.
#![tactic(auto)]

#[cfg(test)]
mod bench;
#[cfg(test)]
mod calls;
#[cfg(test)]
mod common;
#[cfg(test)]
mod disturbing;
#[cfg(test)]
mod lanes;
#[cfg(test)]
mod publishing;
#[cfg(test)]
mod scripts;
