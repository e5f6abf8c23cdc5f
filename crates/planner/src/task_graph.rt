// What a task graph is made of.
ghost use Rattle.std.specs.Prelude.{◌≡◌, ◌≤◌, false, vec_len, vec_capacity};
ghost use Rattle.graph.specs.Of.{net_of};
ghost use Rattle.graph.specs.Walks.{NoCircle};
ghost use Rattle.planner.specs.State.{is_open};

use crate::records::Stage;
use graph::graph::Graph;

pub mod calls;
pub mod job_words;

// A graph, how far it has come, and the block of each task, with memory for all that there may ever be.
#[derive(Drop)]
pub struct TaskGraph {
    graph: Graph,
    stage: Stage,
    blocks: Vec<u32>,
    ghost block_room: { 256 ≤ vec_capacity blocks },
    ghost block_limit: { vec_len blocks ≤ 256 },
    ghost acyclic: { is_open stage ≡ false → NoCircle (net_of graph).links },
}
