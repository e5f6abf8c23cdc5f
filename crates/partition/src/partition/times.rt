// What each block takes on a machine.
ghost use Rattle.std.specs.Prelude.{◌≡◌, ◌+◌, ◌^◌, ◌<◌, ◌≤◌, length, slice_index, slice_set};
ghost use Rattle.graph.specs.Net.{Timed};
ghost use Rattle.partition.specs.Named.{overhead_of, time_of};
ghost use Rattle.partition.specs.Times.{own_time, AtEach, Room};
ghost use Rattle.partition.specs.Views.{Least};

use crate::partition::Partition;
use crate::partition::with_crossings::WithCrossings;
use chains::limits::NUMBERS;
use graph::records::Task;
use machine::Machine;

// The table with a time added at a block's number.
fn add_at(table: &mut [u64; NUMBERS], block: u32, time: u64)
    requires known { block ≤ 256 }
    requires fits { slice_index table.old block + time < 2 ^ 64 }
    ensures { table.new ≡ slice_set table.old block (slice_index table.old block + time) }
{
    table[block as usize] += time;
}

// The table with the time of each task added at the number of its block. It takes the two lists, since its loop goes over them side by side.
fn add_tasks(table: &mut [u64; NUMBERS], tasks: &[Task], blocks: &[u32])
    requires all { length blocks.now ≡ length tasks.now }
    requires few { length tasks.now ≤ 256 }
    requires timed { Timed tasks.now }
    requires least { Least (length tasks.now) blocks.now }
    requires room { Room table.old }
    ensures { AtEach (λ b. slice_index table.old b + own_time tasks.now blocks.now b) table.new }
{
    for (task, block) in tasks.iter().zip(blocks) {
        add_at(table, *block, u64::from(task.time));
    }
}

impl WithCrossings<'_> {
    // At each block's number the starting time, with the reading of each message that enters and the writing of each that
    // leaves.
    fn overheads<M: Machine>(&self, machine: &M) -> [u64; NUMBERS]
        ensures at_each { AtEach (overhead_of (M.meaning machine.now) self.now.partition) result }
        ensures room { Room result }
    {
        let mut table = [machine.startup(); NUMBERS];
        for message in self.messages() {
            let reading = machine.reading(message.size).unwrap_or(0);
            let writing = machine.writing(message.size).unwrap_or(0);
            add_at(&mut table, message.to, reading);
            add_at(&mut table, message.from, writing);
        }
        table
    }

    // At each block's number its overhead and the times of its tasks.
    pub(crate) fn times<M: Machine>(&self, machine: &M) -> [u64; NUMBERS]
        ensures at_each { AtEach (time_of (M.meaning machine.now) self.now.partition) result }
        ensures room { Room result }
    {
        let mut table = self.overheads(machine);
        add_tasks(&mut table, self.partition.tasks, self.partition.blocks);
        table
    }
}

impl Partition<'_> {
    // At each block's number its overhead on the machine.
    pub fn overheads<M: Machine>(&self, machine: &M) -> [u64; NUMBERS]
        ensures { AtEach (overhead_of (M.meaning machine.now) self.now) result }
    {
        self.with_crossings().overheads(machine)
    }

    // At each block's number what it takes on the machine: its overhead and the times of its tasks.
    pub fn times<M: Machine>(&self, machine: &M) -> [u64; NUMBERS]
        ensures at_each { AtEach (time_of (M.meaning machine.now) self.now) result }
        ensures room { Room result }
    {
        self.with_crossings().times(machine)
    }
}
