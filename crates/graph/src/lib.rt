// Tasks and links, their lists, paths over links, and the order in which tasks can be processed.
#![tactic(auto)]

pub mod graph;
pub mod limits;
mod order;
mod reach;
pub mod records;
pub mod refusals;
