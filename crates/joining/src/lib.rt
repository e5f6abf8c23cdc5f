// Joining two blocks with all blocks on paths between them.
#![tactic(auto)]

pub mod examples;
pub mod joined;
mod pair;
pub mod reach;
