// Which row comes next.
ghost use Rattle.std.specs.Prelude.{◌≡◌, ℕ, ◌<◌, ◌≤◌, false, not, ◌&&◌, ◌||◌, if◌then◌else◌, ◌==◌, nat_lt, slice_index, slice_index_or};
ghost use Rattle.chains.specs.Lists.{In};
ghost use Rattle.schedule.specs.Boards.{laid};
ghost use Rattle.schedule.specs.Placing.{is_fed, start_on, earliest, row_of, comes_before, first_of_two};
ghost use Rattle.schedule.specs.Seen.{seen, standing_in, earlier_in, first_in, chosen_in};

use crate::limits::NUMBERS;
use crate::order::{Priority, is_earlier};
use crate::priority::Standing;
use crate::problem::Problem;
use crate::problem::bench::Bench;
use crate::rows::Row;
use chains::message::Message;
use chains::table::entry;
use machine::Machine;

// Of two starts, each with its processor, the sooner: the next one only where it is sooner than the best so far.
fn sooner(best: (u64, u32), next: (u64, u32)) -> (u64, u32)
    ensures { result ≡ (if nat_lt next.0 best.0 then next else best) }
{
    if next.0 < best.0 { next } else { best }
}

// A block stays fed if this message does not come to it from a block without a row.
fn wait_for(message: &Message, placed: &[bool; NUMBERS], fed: &mut [bool; NUMBERS])
    requires from { message.now.from ≤ 256 }
    requires to { message.now.to ≤ 256 }
    ensures { (b : ℕ) → b ≤ 256 → slice_index_or fed.new b false ≡ ((not (message.now.to == b) || slice_index_or placed.now message.now.from false) && slice_index_or fed.old b false) }
{
    if !placed[message.from as usize] {
        fed[message.to as usize] = false;
    }
}

impl<'a> Problem<'a> {
    // The level and the time of a block.
    fn standing(&self, block: u64) -> Standing
        ensures { result ≡ standing_in self.now block }
    {
        let levels = self.levels;
        let times = self.times;
        Standing {
            level: entry(levels, block as usize),
            time: entry(times, block as usize),
        }
    }
}

impl<'a, M: Machine, O: Priority> Bench<'a, M, O> {
    // Whether one block is earlier in the order than another.
    fn is_earlier(&self, one: u64, other: u64) -> bool
        ensures { result ≡ earlier_in (O.Priority.meaning self.now.priority.now) self.now.problem.now one other }
    {
        is_earlier(
            self.priority,
            self.problem.standing(one),
            self.problem.standing(other),
            one,
            other,
        )
    }

    // Whether one row comes before another: it starts sooner, or at the same time and its block is earlier in the order.
    fn comes_before(&self, one: &Row, other: &Row) -> bool
        ensures { result ≡ comes_before (earlier_in (O.Priority.meaning self.now.priority.now) self.now.problem.now) one.now other.now }
    {
        one.start < other.start
            || (one.start == other.start && self.is_earlier(one.block, other.block))
    }

    // The first of what is at hand and one row more. Not `Some(best.filter(..).unwrap_or(row))`, tried: the check finds no proof
    // of what the closure's call of `comes_before` gives.
    fn first_of_two(&self, best: Option<Row>, row: Row) -> Option<Row>
        ensures { result ≡ first_of_two (earlier_in (O.Priority.meaning self.now.priority.now) self.now.problem.now) best row }
    {
        match best {
            Some(other) if !self.comes_before(&row, &other) => best,
            _ => Some(row),
        }
    }

    // When a block can start on a processor.
    fn start_on(&self, block: u32, processor: u32) -> u64
        requires known { block ≤ 256 }
        requires exists { processor < (M.Machine.meaning self.now.machine.now).processors }
        ensures { result ≡ start_on (M.Machine.meaning self.now.machine.now) (seen self.now.problem.now) (laid self.now.board) block processor }
    {
        let free = self.board.free[processor as usize];
        free.max(self.board.arrivals[block as usize][processor as usize])
    }

    // The earliest start of a block, and the lowest processor that has it.
    fn earliest(&self, block: u32) -> (u64, u32)
        requires { block ≤ 256 }
        ensures { result ≡ earliest (M.Machine.meaning self.now.machine.now) (seen self.now.problem.now) (laid self.now.board) block }
    {
        let mut best = (self.start_on(block, 0), 0);
        for processor in 1..self.machine.processors() {
            let start = self.start_on(block, processor);
            best = sooner(best, (start, processor));
        }
        best
    }

    // Whether each message to a block comes from a block that has a row, for each block.
    fn fed_blocks(&self) -> [bool; NUMBERS]
        ensures { (b : ℕ) → b ≤ 256 → slice_index_or result b false ≡ is_fed self.now.problem.now.messages.now (laid self.now.board) b }
    {
        let mut fed = [true; NUMBERS];
        for message in self.problem.messages {
            wait_for(message, &self.board.placed, &mut fed);
        }
        fed
    }

    // The row of a block at its earliest start.
    fn row_of(&self, block: u32) -> Row
        requires { In block self.now.problem.now.blocks.now }
        ensures { result ≡ row_of (M.Machine.meaning self.now.machine.now) (seen self.now.problem.now) (laid self.now.board) block }
    {
        let (start, processor) = self.earliest(block);
        Row {
            block: u64::from(block),
            processor: u64::from(processor),
            start,
            finish: start + self.problem.times[block as usize],
        }
    }

    // The first of what is at hand and a block's row, if the block is a candidate.
    fn with_block(&self, fed: &[bool; NUMBERS], best: Option<Row>, block: u32) -> Option<Row>
        requires listed { In block self.now.problem.now.blocks.now }
        requires feeds { slice_index_or fed.now block false ≡ is_fed self.now.problem.now.messages.now (laid self.now.board) block }
        ensures { result ≡ first_in (M.Machine.meaning self.now.machine.now) self.now.problem.now (O.Priority.meaning self.now.priority.now) (laid self.now.board) best block }
    {
        if self.board.placed[block as usize] || !fed[block as usize] {
            return best;
        }
        self.first_of_two(best, self.row_of(block))
    }

    // The row that comes next, where there is a candidate.
    pub(crate) fn choose(&self) -> Option<Row>
        ensures { result ≡ chosen_in (M.Machine.meaning self.now.machine.now) self.now.problem.now (O.Priority.meaning self.now.priority.now) (laid self.now.board) }
    {
        let fed = self.fed_blocks();
        let mut best = None;
        for block in self.problem.blocks {
            best = self.with_block(&fed, best, *block);
        }
        best
    }
}
