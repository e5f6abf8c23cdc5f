// The messages between the blocks of a partition.
use chains::message::Message;
use fixed_list::list::FixedList;
use graph::limits::MAX_LINKS;

pub mod gather;

// The messages, one for each link that crosses.
#[derive(Clone, Copy, Debug, Eq, PartialEq)]
pub struct Crossings {
    messages: FixedList<Message, MAX_LINKS>,
}
