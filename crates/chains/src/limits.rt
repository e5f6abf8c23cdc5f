//! How large the tables of blocks and messages are.

/// As many blocks as there may be; they are numbered from 1.
pub const MAX_BLOCKS: usize = 256;

/// As many entries as a table by block number has; the entry 0 is no block's.
pub const NUMBERS: usize = MAX_BLOCKS + 1;

/// As many messages as there may be.
pub const MAX_MESSAGES: usize = 1024;

/// As many entries as a table of step costs has: a row for each sender.
pub const STEPS: usize = NUMBERS * NUMBERS;
