// Theorems over schedules. Each function does nothing: its contract is the theorem.
#![tactic(auto)]

pub mod bounds;
pub mod chosen;
pub mod examples;
pub mod rivals;
