// A task graph with its stage and blocks, and the calls on it.
#![tactic(auto)]

pub mod examples;
pub mod intake;
pub mod intake_refusal;
pub mod records;
pub mod task_graph;
