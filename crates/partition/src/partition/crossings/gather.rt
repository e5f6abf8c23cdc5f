// Gathering the messages of a partition.
ghost use Rattle.std.specs.Prelude.{◌≡◌, ◌≤◌, length};
ghost use Rattle.fixed_list.specs.Items.{items_of};
ghost use Rattle.graph.specs.Net.{Joined};
ghost use Rattle.partition.specs.Blocks.{block_of, messages, Convex};
ghost use Rattle.partition.specs.Held.{held};
ghost use Rattle.partition.specs.Named.{messages_of};

use crate::partition::Partition;
use crate::partition::crossings::Crossings;
use chains::message::Message;
use fixed_list::list::FixedList;
use graph::limits::MAX_LINKS;
use graph::records::Link;

// The block of a task.
fn block_at(blocks: &[u32], task: u32) -> u32
    requires some { 1 ≤ task }
    requires known { task ≤ length blocks.now }
    ensures { result ≡ block_of blocks.now task }
{
    blocks[task as usize - 1]
}

// One message for each link that crosses, in the order of the links.
fn gather(links: &[Link], blocks: &[u32]) -> FixedList<Message, MAX_LINKS>
    requires few { length links.now ≤ 1024 }
    requires joined { Joined (length blocks.now) links.now }
    ensures { items_of result ≡ messages links.now blocks.now }
{
    let mut messages = FixedList::new();
    for link in links {
        let from = block_at(blocks, link.sender);
        let to = block_at(blocks, link.receiver);
        if from != to {
            messages.push(Message {
                from,
                to,
                size: link.size,
            });
        }
    }
    messages
}

impl Partition<'_> {
    // The messages between the blocks: one for each link that crosses. They never return to a block that they left.
    pub fn crossings(&self) -> Crossings
        ensures result_value { held result ≡ messages_of self.now }
        ensures convex { Convex (messages_of self.now) }
    {
        let messages = gather(self.links, self.blocks);
        Crossings { messages }
    }
}

impl Crossings {
    // The messages, in the order of their links.
    pub fn as_slice(&self) -> &[Message]
        ensures { result.now ≡ held self.now }
    {
        self.messages.as_slice()
    }
}
