// A block to join another to, and what the partition after joining costs.
#[derive(Clone, Copy, Debug, Eq, PartialEq)]
pub struct Choice {
    pub partner: u32,
    pub cost: u64,
}
