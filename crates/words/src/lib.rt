// Job words: a graph as a list of 32-bit numbers, written and read.
#![tactic(auto)]

pub mod bytes;
mod checks;
mod job;
pub mod layout;
mod names;
pub mod numbers;
pub mod read;
pub mod refusal;
pub mod round_trips;
mod tested;
pub mod write;
