// The levels of the blocks on a machine.
ghost use Rattle.std.specs.Prelude.{◌≡◌, length};
ghost use Rattle.partition.specs.Greatest.{LevelsGreatest};
ghost use Rattle.partition.specs.Named.{messages_of, list_of, time_of, level_of};
ghost use Rattle.partition.specs.Times.{AtEach};

use crate::partition::Partition;
use crate::partition::with_crossings::WithCrossings;
use chains::limits::NUMBERS;
use chains::sums::greatest_block_sums;
use machine::Machine;

// At each block's number what the block takes on a machine, and its level there; the level is 0 at every other number.
// Two tables, and not one of pairs: the levels are made from the times as a table.
#[derive(Clone, Copy, Debug, Eq, PartialEq)]
pub struct BlockFigures {
    pub times: [u64; NUMBERS],
    pub levels: [u64; NUMBERS],
}

impl WithCrossings<'_> {
    fn figures<M: Machine>(&self, machine: &M) -> BlockFigures
        ensures times { AtEach (time_of (M.meaning machine.now) self.now.partition) result.times }
        ensures levels { AtEach (level_of (M.meaning machine.now) self.now.partition) result.levels }
    {
        let times = self.times(machine);
        let mut levels = [0; NUMBERS];
        greatest_block_sums(&self.network(), &times, &mut levels);
        BlockFigures { times, levels }
    }
}

impl Partition<'_> {
    // Every block's level is had by a chain from it and exceeded by none.
    pub fn figures<M: Machine>(&self, machine: &M) -> BlockFigures
        ensures times { AtEach (time_of (M.meaning machine.now) self.now) result.times }
        ensures levels { AtEach (level_of (M.meaning machine.now) self.now) result.levels }
        ensures greatest { LevelsGreatest (time_of (M.meaning machine.now) self.now) (messages_of self.now) (list_of self.now) }
    {
        self.with_crossings().figures(machine)
    }
}
