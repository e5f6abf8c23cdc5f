//! Tests of the chain figures, and a figure that another crate brings: how many chains there are.
#![tactic(auto)]

pub mod count;
#[cfg(test)]
mod tests;
