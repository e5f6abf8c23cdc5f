// Placing: a step for each block.
ghost use Rattle.std.specs.Prelude.{◌≡◌, ◌+◌, ◌<◌, ◌≤◌, length};
ghost use Rattle.schedule.specs.Boards.{laid, count};
ghost use Rattle.schedule.specs.Problems.{length_of};
ghost use Rattle.schedule.specs.Schedules.{rows_in};
ghost use Rattle.schedule.specs.Seen.{stepped, placing_in};

use crate::board::Board;
use crate::order::Priority;
use crate::problem::Problem;
use crate::problem::bench::Bench;
use crate::schedule::Schedule;
use machine::Machine;

impl<'a, M: Machine, O: Priority> Bench<'a, M, O> {
    // The next row is on the board too, where there is a candidate.
    fn step(&mut self)
        requires room { count self.old.board < 256 }
        ensures problem { self.new.problem.now ≡ self.old.problem.now }
        ensures machine { self.new.machine.now ≡ self.old.machine.now }
        ensures priority { self.new.priority.now ≡ self.old.priority.now }
        ensures rows { laid self.new.board ≡ stepped (M.Machine.meaning self.old.machine.now) self.old.problem.now (O.Priority.meaning self.old.priority.now) (laid self.old.board) }
        ensures count { count self.new.board ≤ count self.old.board + 1 }
    {
        if let Some(row) = self.choose() {
            self.add_row(&row);
        }
    }
}

// The board after a step for each block.
fn fill<M: Machine, O: Priority>(problem: &Problem, machine: &M, priority: &O) -> Board
    ensures rows { laid result ≡ placing_in (M.Machine.meaning machine.now) problem.now (O.Priority.meaning priority.now) }
    ensures length { result.length ≡ length_of (placing_in (M.Machine.meaning machine.now) problem.now (O.Priority.meaning priority.now)) }
    ensures few { count result ≤ 256 }
{
    let mut bench = Bench::new(problem, machine, priority);
    for _ in problem.blocks {
        bench.step();
    }
    bench.board
}

// Places the blocks of a problem on the processors of a machine by an order.
pub fn place<M: Machine, O: Priority>(problem: &Problem, machine: &M, priority: &O) -> Schedule
    ensures rows { rows_in result ≡ placing_in (M.Machine.meaning machine.now) problem.now (O.Priority.meaning priority.now) }
    ensures length { result.length ≡ length_of (placing_in (M.Machine.meaning machine.now) problem.now (O.Priority.meaning priority.now)) }
    ensures few { length (rows_in result) ≤ 256 }
{
    let board = fill(problem, machine, priority);
    Schedule {
        rows: board.rows,
        length: board.length,
    }
}
