// Checking rows from anyone: exactly the valid schedules are accepted.
#![tactic(auto)]

mod arriving;
mod checker;
mod examples;
mod first;
mod job;
mod naming;
mod overlapping;
mod refusal;
mod timing;

pub use crate::checker::check;
pub use crate::examples::four_blocks_checked;
pub use crate::job::Job;
pub use crate::refusal::CheckRefusal;
