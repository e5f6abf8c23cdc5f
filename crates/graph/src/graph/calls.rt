// What can be done with a graph: adding a task, linking two, looking at both, and emptying it.
ghost use Rattle.std.specs.Prelude.{◌≡◌, ◌+◌, ◌<◌, ◌≤◌, true, length, take, IfOk, Some, None, vec_len, MatchResult, ◌==◌, ◌≢◌};
ghost use Rattle.graph.specs.Net.{empty, linked, Sound};
ghost use Rattle.graph.specs.Outgoing.{ListsAreExact};
ghost use Rattle.graph.specs.Calls.{is_task, is_time, with_link, add_step, link_step, first_of};
ghost use Rattle.graph.specs.Walks.{through, close_rows, Processes, ReachesByWalks, NamesACircle, some_number};
ghost use Rattle.graph.specs.Tables.{Shows};
ghost use Rattle.graph.specs.Of.{net_of};

use crate::graph::Graph;
use crate::limits::{MAX_LINKS, MAX_SIZE, MAX_TASKS, MAX_TIME};
use crate::reach::{ReachTable, Rows, closed, no_rows};
use crate::records::{Link, Refusal, Task};
use std::alloc::{AllocError, Global};

// Whether a task may have this time.
pub fn time_in_range(time: u32) -> bool
    ensures { result ≡ is_time time }
{
    (1..=MAX_TIME).contains(&time)
}

impl Link {
    // A link, with the older link of its sender that comes next.
    fn new(sender: u32, receiver: u32, size: u32, next: u32) -> Link
        ensures { result ≡ record { sender = sender; receiver = receiver; size = size; next = next } }
    {
        Link {
            sender,
            receiver,
            size,
            next,
        }
    }
}

impl Graph {
    // A graph of nothing, with all the memory that it will ever need.
    pub fn new(heap: Global) -> Result<Graph, AllocError>
        ensures { IfOk result (λ g. net_of g ≡ empty) }
    {
        let tasks = Vec::with_capacity(heap, MAX_TASKS)?;
        let links = Vec::with_capacity(heap, MAX_LINKS)?;
        Ok(Graph { tasks, links })
    }

    pub fn tasks(&self) -> &[Task]
        ensures { result.now ≡ (net_of self.now).tasks }
    {
        self.tasks.as_slice()
    }

    // What holds of tasks and links in every graph, and of their lists. The function does nothing else.
    pub fn lists_hold(&self)
        ensures few { (length (net_of self.now).tasks ≤ 256) × (length (net_of self.now).links ≤ 1024) }
        ensures sound { Sound (net_of self.now).tasks (net_of self.now).links }
        ensures lists { ListsAreExact (net_of self.now) }
    {}

    // The links, with what holds of tasks and links in every graph.
    pub fn links(&self) -> &[Link]
        ensures value { result.now ≡ (net_of self.now).links }
        ensures few { (length (net_of self.now).tasks ≤ 256) × (length (net_of self.now).links ≤ 1024) }
        ensures sound { Sound (net_of self.now).tasks (net_of self.now).links }
        ensures lists { ListsAreExact (net_of self.now) }
    {
        self.lists_hold();
        self.links.as_slice()
    }

    pub fn has_task(&self, task: u32) -> bool
        ensures { result ≡ is_task (net_of self.now) task }
    {
        (1..=self.tasks.len()).contains(&(task as usize))
    }

    // Takes one more task in, and answers its number.
    pub fn add_task(&mut self, time: u32) -> Result<u32, Refusal>
        ensures { (net_of self.new, result) ≡ add_step (net_of self.old) time }
    {
        if !time_in_range(time) {
            return Err(Refusal::TimeOutOfRange);
        }
        if self.tasks.len() >= MAX_TASKS {
            return Err(Refusal::TooManyTasks);
        }
        self.tasks.push_reserved(Task { time, newest: 0 });
        Ok(self.tasks.len() as u32)
    }

    // The number of the link of a pair, found along the sender's list, which ends at 0 as in the words of a job.
    fn find_link(&self, from: u32, to: u32) -> Option<u32>
        requires some { 1 ≤ from }
        requires known { from ≤ vec_len self.now.tasks }
        ensures { result ≡ some_number (linked self.now.links.items from to) }
    {
        let mut at = self.tasks[from as usize - 1].newest;
        while at != 0 {
            let link = self.links[at as usize - 1];
            if link.receiver == to {
                return Some(at);
            }
            at = link.next;
        }
        None
    }

    // Puts a link that is allowed at the front of its sender's list.
    fn put_link(&mut self, from: u32, to: u32, size: u32) -> u32
        requires sender { is_task (net_of self.old) from ≡ true }
        requires receiver { is_task (net_of self.old) to ≡ true }
        requires unlooped { from ≢ to }
        requires sized { size ≤ MAX_SIZE }
        requires single { linked self.old.links.items from to ≡ 0 }
        requires room { vec_len self.old.links < MAX_LINKS }
        ensures value { result ≡ length self.old.links.items + 1 }
        ensures after { net_of self.new ≡ with_link (net_of self.old) from to size }
    {
        let at = from as usize - 1;
        let number = self.links.len() as u32 + 1;
        let next = self.tasks[at].newest;
        self.tasks[at].newest = number;
        self.links.push_reserved(Link::new(from, to, size, next));
        number
    }

    // Links two tasks, and answers the link's number.
    pub fn link(&mut self, from: u32, to: u32, size: u32) -> Result<u32, Refusal>
        ensures { (net_of self.new, result) ≡ link_step (net_of self.old) from to size }
    {
        if !self.has_task(from) {
            return Err(Refusal::NoSuchTask(from));
        }
        if !self.has_task(to) {
            return Err(Refusal::NoSuchTask(to));
        }
        if from == to {
            return Err(Refusal::SelfLink(from));
        }
        if size > MAX_SIZE {
            return Err(Refusal::SizeTooLarge);
        }
        if let Some(older) = self.find_link(from, to) {
            return Err(Refusal::AlreadyLinked(older));
        }
        if self.links.len() >= MAX_LINKS {
            return Err(Refusal::TooManyLinks);
        }
        Ok(self.put_link(from, to, size))
    }

    // Forgets all tasks and links, and keeps the memory.
    pub fn clear(&mut self)
        ensures { net_of self.new ≡ empty }
    {
        self.tasks.clear();
        self.links.clear();
    }

    // That tasks reach each other by walks, and that the circle that is named is the least. It does nothing else.
    pub fn circles_named(&self)
        ensures walks { ReachesByWalks (net_of self.now) }
        ensures circles { NamesACircle (net_of self.now) }
    {}

    // The table of what each task reaches, with rows that were found for it.
    fn reach<'a>(&'a self, rows: &'a Rows) -> ReachTable<'a>
        requires { Shows rows.now (through (net_of self.now).links (length (net_of self.now).tasks)) }
        ensures links { result.links.now ≡ (net_of self.now).links }
        ensures tasks { result.tasks ≡ length (net_of self.now).tasks }
    {
        ReachTable::new(self.links.as_slice(), self.tasks.len(), rows)
    }

    // The order in which the tasks can be processed, in the first places of the answer. It is an array, since this library
    // stands on none that has a list of fixed room, and closing a graph drops the order.
    pub fn processing_order(&self) -> Result<[u32; MAX_TASKS], Refusal>
        ensures answer { MatchResult result (λ order. (first_of (close_rows (net_of self.now)) ≡ None) × Processes (length (net_of self.now).tasks) (net_of self.now).links (take (length (net_of self.now).tasks) order)) (λ why. first_of (close_rows (net_of self.now)) ≡ Some why) }
        ensures walks { ReachesByWalks (net_of self.now) }
        ensures circles { NamesACircle (net_of self.now) }
    {
        self.circles_named();
        if self.tasks.is_empty() {
            return Err(Refusal::NoTask);
        }
        let mut rows = no_rows();
        closed(&mut rows, self.links.as_slice(), self.tasks.len());
        let table = self.reach(&rows);
        if let Some(on) = table.least_on_circle() {
            return Err(Refusal::Circle(on));
        }
        Ok(table.order())
    }
}
