// A schedule as placing makes it. This file has no clause, so that the specs may name its type.
use crate::limits::MAX_BLOCKS;
use crate::rows::Row;
use fixed_list::list::FixedList;

pub mod reading;

// The rows in the order in which they were placed, and the greatest finish.
#[derive(Clone, Copy, Debug, PartialEq, Eq)]
pub struct Schedule {
    pub rows: FixedList<Row, MAX_BLOCKS>,
    pub length: u64,
}
