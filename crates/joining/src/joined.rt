// The blocks of tasks after two were joined, with an order to process the blocks in.
use chains::limits::MAX_BLOCKS;
use fixed_list::list::FixedList;

pub mod view;

// The block of each task, and the blocks in their processing order.
#[derive(Clone, Copy, Debug, Eq, PartialEq)]
pub struct Joined {
    pub blocks: FixedList<u32, MAX_BLOCKS>,
    pub order: FixedList<u32, MAX_BLOCKS>,
}
