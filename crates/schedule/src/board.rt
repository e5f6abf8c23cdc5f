// The rows placed so far, with what placing asks of them at hand. This file has no clause, so that the specs may name its type.
use crate::limits::{MAX_BLOCKS, MAX_PROCESSORS, NUMBERS};
use crate::rows::Row;
use fixed_list::list::FixedList;

// The rows; whether each block has a row; when each processor is free; when the data of each block is on each processor;
// the greatest finish. What is at hand of a block stands at its number, and what is at hand of a processor at its own: one
// struct for each block would join what no step reads together.
#[derive(Clone, Copy, Debug, PartialEq, Eq)]
pub struct Board {
    pub rows: FixedList<Row, MAX_BLOCKS>,
    pub placed: [bool; NUMBERS],
    pub free: [u64; MAX_PROCESSORS],
    pub arrivals: [[u64; MAX_PROCESSORS]; NUMBERS],
    pub length: u64,
}
