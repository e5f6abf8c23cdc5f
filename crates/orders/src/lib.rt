// The orders of blocks that there are: by level, by time, by number, one refined by another, and either of two.
#![tactic(auto)]

pub mod kinds;

pub use either::Either;
