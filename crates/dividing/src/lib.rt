// Dividing: joining the heaviest block again and again, and keeping the earliest cheapest partition.
#![tactic(auto)]

mod choice;
pub mod divide;
pub mod divided;
pub mod examples;
pub mod heaviest;
mod held_apart;
mod partner;
mod step;
