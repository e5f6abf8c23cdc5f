// A partition with its processing order, and what it costs.
use joining::joined::Joined;

#[derive(Clone, Copy, Debug, Eq, PartialEq)]
pub struct Divided {
    pub joined: Joined,
    pub cost: u64,
}
