// What an order of blocks compares and answers. This file has no clause, so that the specs may name its types.

// What an order knows of a block: its level, and how long it takes.
#[derive(Clone, Copy, PartialEq, Eq, Debug)]
pub struct Standing {
    pub level: u64,
    pub time: u64,
}

// What an order says of one block beside another. The rules give each case its number and its meaning, so this stands
// beside the library's Ordering, which turns into it.
#[derive(Clone, Copy, PartialEq, Eq, Debug)]
pub enum Rank {
    Ahead,
    Even,
    Behind,
}
