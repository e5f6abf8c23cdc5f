// The work, the critical path and the cost of a partition on a machine.
ghost use Rattle.std.specs.Prelude.{◌≡◌, ℕ};
ghost use Rattle.chains.specs.Lists.{total, greatest};
ghost use Rattle.partition.specs.Blocks.{EachBlock};
ghost use Rattle.partition.specs.Costs.{work, at_blocks};
ghost use Rattle.partition.specs.Greatest.{GreatestOver};
ghost use Rattle.partition.specs.Named.{messages_of, list_of, time_of, work_of, path_of, cost_of};
ghost use Rattle.partition.specs.Times.{AtEach, Room};

use crate::partition::Partition;
use chains::limits::NUMBERS;
use machine::Machine;

impl Partition<'_> {
    // The sum of a table's entries at the blocks' numbers: the work, where they are block times.
    fn sum_at(&self, table: &[u64; NUMBERS]) -> u64
        requires room { Room table.now }
        ensures { (f : ℕ → ℕ) → AtEach f table.now → result ≡ work f (list_of self.now) }
    {
        self.order.iter().map(|block| table[*block as usize]).sum()
    }

    // The greatest of a table's entries at the blocks' numbers: the critical path, where they are levels, and the delay
    // chain, where they are delays.
    pub(crate) fn greatest_at(&self, table: &[u64; NUMBERS]) -> u64
        ensures { (f : ℕ → ℕ) → AtEach (at_blocks f (list_of self.now)) table.now → result ≡ greatest f (list_of self.now) }
    {
        self.order
            .iter()
            .fold(0, |most, block| table[*block as usize].max(most))
    }

    // All block times together.
    pub fn work<M: Machine>(&self, machine: &M) -> u64
        ensures value { result ≡ work_of (M.meaning machine.now) self.now }
        ensures each { EachBlock self.now.blocks.now (list_of self.now) }
    {
        self.sum_at(&self.times(machine))
    }

    // The greatest sum of block times over chains.
    pub fn critical_path<M: Machine>(&self, machine: &M) -> u64
        ensures value { result ≡ path_of (M.meaning machine.now) self.now }
        ensures greatest { GreatestOver (messages_of self.now) (list_of self.now) (total (time_of (M.meaning machine.now) self.now)) (path_of (M.meaning machine.now) self.now) }
    {
        self.greatest_at(&self.figures(machine).levels)
    }

    // What a partition is judged by: the larger of the critical path times the number of processors, and the work.
    pub fn cost<M: Machine>(&self, machine: &M) -> u64
        ensures { result ≡ cost_of (M.meaning machine.now) self.now }
    {
        let figures = self.figures(machine);
        let path = self.greatest_at(&figures.levels);
        let work = self.sum_at(&figures.times);
        (u64::from(machine.processors()) * path).max(work)
    }
}
