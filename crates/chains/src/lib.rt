//! The best over all chains of blocks: one text for every chain figure.
#![tactic(auto)]

pub mod best;
pub mod figure;
pub mod limits;
pub mod message;
pub mod network;
pub mod reach;
pub mod sums;
pub mod table;
