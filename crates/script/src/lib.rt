// The words of a script of calls on a link: what a line asks, and how an answer is written.
#![tactic(auto)]

mod calls;
mod choice;
mod digits;
pub mod expected;
pub mod kinds;
pub mod line;
pub mod narrow;
pub mod reading;
mod records;
mod settings;
pub mod show;
mod words;
