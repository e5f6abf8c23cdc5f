// The calls on a task graph: adding a task, linking two, closing, and looking at what is there.
ghost use Rattle.std.specs.Prelude.{◌≡◌, ◌≤◌, if◌then◌else◌, false, Ok, Err, IfOk, vec_len, vec_capacity};
ghost use Rattle.graph.specs.declared.records.Refusal.TheVariants.{WrongStage};
ghost use Rattle.graph.specs.Of.{net_of};
ghost use Rattle.graph.specs.Walks.{NoCircle, ReachesByWalks, NamesACircle};
ghost use Rattle.planner.specs.State.{start, is_open, numbers};
ghost use Rattle.planner.specs.Calls.{add_task, link, close, step};
ghost use Rattle.planner.specs.Of.{state_of};

use crate::records::Stage;
use crate::task_graph::TaskGraph;
use graph::graph::Graph;
use graph::limits::MAX_TASKS;
use graph::records::Refusal;
use std::alloc::{AllocError, Global};

// Every task may be a block of its own.
const MAX_BLOCKS: usize = MAX_TASKS;

// Makes the blocks 1 to n, one for each task.
fn number_blocks(blocks: &mut Vec<u32>, n: usize)
    requires few { n ≤ 256 }
    requires room { 256 ≤ vec_capacity blocks.old }
    ensures items { blocks.new.items ≡ numbers n }
    ensures len { vec_len blocks.new ≡ n }
    ensures room { 256 ≤ vec_capacity blocks.new }
{
    blocks.clear();
    for number in 1..n as u32 + 1 {
        blocks.push_reserved(number);
    }
}

impl TaskGraph {
    // An open graph of nothing, with all the memory that it will ever need.
    pub fn new(heap: Global) -> Result<TaskGraph, AllocError>
        ensures { IfOk result (λ g. state_of g ≡ start) }
    {
        let graph = Graph::new(heap)?;
        let blocks = Vec::with_capacity(heap, MAX_BLOCKS)?;
        Ok(TaskGraph {
            graph,
            stage: Stage::Open,
            blocks,
        })
    }

    pub fn graph(&self) -> &Graph
        ensures { net_of result.now ≡ (state_of self.now).net }
    {
        &self.graph
    }

    // The stage; past the open one no walk over links comes back to where it began.
    pub fn stage(&self) -> Stage
        ensures value { result ≡ (state_of self.now).stage }
        ensures acyclic { is_open result ≡ false → NoCircle (state_of self.now).net.links }
    {
        self.stage
    }

    // The block of each task.
    pub fn blocks(&self) -> &[u32]
        ensures { result.now ≡ (state_of self.now).blocks }
    {
        self.blocks.as_slice()
    }

    // Refuses a graph that is not open.
    fn must_be_open(&self) -> Result<(), Refusal>
        ensures { result ≡ (if is_open self.now.stage then Ok tt else Err WrongStage) }
    {
        match self.stage {
            Stage::Open => Ok(()),
            Stage::Closed => Err(Refusal::WrongStage),
        }
    }

    // Takes one more task in, and answers its number.
    pub fn add_task(&mut self, time: u32) -> Result<u32, Refusal>
        ensures { (state_of self.new, result) ≡ step (state_of self.old) (add_task time) }
    {
        self.must_be_open()?;
        self.graph.add_task(time)
    }

    // Links two tasks, and answers the link's number.
    pub fn link(&mut self, from: u32, to: u32, size: u32) -> Result<u32, Refusal>
        ensures { (state_of self.new, result) ≡ step (state_of self.old) (link from to size) }
    {
        self.must_be_open()?;
        self.graph.link(from, to, size)
    }

    // Fixes the tasks and links, makes every task a block of its own, and answers the number of tasks.
    pub fn close(&mut self) -> Result<u32, Refusal>
        ensures after { (state_of self.new, result) ≡ step (state_of self.old) close }
        ensures walks { ReachesByWalks (state_of self.old).net }
        ensures circles { NamesACircle (state_of self.old).net }
    {
        self.must_be_open()?;
        self.graph.processing_order()?;
        let n = self.graph.tasks().len();
        number_blocks(&mut self.blocks, n);
        self.stage = Stage::Closed;
        Ok(n as u32)
    }
}
