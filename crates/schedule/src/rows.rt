// The rows of a schedule. This file has no clause, so that the specs may name its type.

// A block, the processor that it runs on, and when it starts and finishes there.
#[derive(Clone, Copy, Default, PartialEq, Eq, Debug)]
pub struct Row {
    pub block: u64,
    pub processor: u64,
    pub start: u64,
    pub finish: u64,
}
