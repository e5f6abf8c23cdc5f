// Blocks of tasks: the messages between them, and what they take and cost on a machine.
#![tactic(auto)]

pub mod examples;
pub mod partition;
