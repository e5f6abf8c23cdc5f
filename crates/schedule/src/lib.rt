// Placing blocks on the processors of a machine, and what a schedule is.
#![tactic(auto)]

mod board;
pub mod examples;
pub mod limits;
mod one_of_two;
pub mod order;
pub mod priority;
pub mod problem;
pub mod rows;
pub mod schedule;
