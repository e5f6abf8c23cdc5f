// The blocks of a graph's tasks, with an order to process the blocks in.
ghost use Rattle.std.specs.Prelude.{◌≡◌, ◌≤◌, length};
ghost use Rattle.graph.specs.Net.{Joined, Sized, Timed};
ghost use Rattle.chains.specs.Chains.{Once, Forward};
ghost use Rattle.partition.specs.Blocks.{messages};
ghost use Rattle.partition.specs.Views.{Least, Own, Listed, Numbered};

use graph::records::{Link, Task};

pub mod costs;
pub mod crossings;
pub mod delays;
pub mod levels;
pub mod times;
pub mod with_crossings;

// At most 256 tasks and 1,024 links, the block of each task, which is numbered by its least task, and an order of the
// blocks in which every message goes from an earlier to a later place. Who can prove that makes the value as it stands.
// The blocks stand beside the tasks, and not in them: both are lent as the graph holds them.
#[derive(Clone, Copy)]
pub struct Partition<'a> {
    pub tasks: &'a [Task],
    pub links: &'a [Link],
    pub blocks: &'a [u32],
    pub order: &'a [u32],
    ghost small: { length tasks.now ≤ 256 },
    ghost few: { length links.now ≤ 1024 },
    ghost timed: { Timed tasks.now },
    ghost joined: { Joined (length tasks.now) links.now },
    ghost sized: { Sized links.now },
    ghost all: { length blocks.now ≡ length tasks.now },
    ghost least: { Least (length tasks.now) blocks.now },
    ghost own: { Own (length tasks.now) blocks.now },
    ghost listed: { Listed (length tasks.now) blocks.now order.now },
    ghost numbered: { Numbered (length tasks.now) blocks.now order.now },
    ghost short: { length order.now ≤ 256 },
    ghost once: { Once order.now },
    ghost forward: { Forward (messages links.now blocks.now) order.now },
}
