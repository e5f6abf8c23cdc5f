// Which blocks of a partition lead to which.
ghost use Rattle.joining.specs.Tables.{Tells};

use chains::limits::NUMBERS;
use partition::partition::Partition;

pub mod join;
pub mod rows;

// A partition, and for each of its blocks a row that says of every number whether the block leads to it.
#[derive(Clone, Copy)]
pub struct Reach<'a> {
    pub partition: Partition<'a>,
    pub rows: [[bool; NUMBERS]; NUMBERS],
    ghost tells: { Tells partition rows },
}
