// A placing under way.
ghost use Rattle.std.specs.Prelude.{◌≡◌, ◌≤◌, length};
ghost use Rattle.schedule.specs.Boards.{laid, count, Marks, Frees, Arrivals, FreeSoon, ArriveSoon};
ghost use Rattle.schedule.specs.Problems.{length_of};
ghost use Rattle.schedule.specs.Seen.{seen};

use crate::board::Board;
use crate::problem::Problem;
use machine::Machine;

// What is placed, on which machine and by which order; and the board, which has at hand what is asked of its rows: which
// blocks have one, when each processor is free, when the data of each block is on each processor, the greatest finish.
// No number on it is near its limit.
#[derive(Drop)]
pub(crate) struct Bench<'a, M: Machine, O> {
    pub problem: &'a Problem<'a>,
    pub machine: &'a M,
    pub priority: &'a O,
    pub board: Board,
    ghost few: { count board ≤ 256 },
    ghost wide: { length board.placed ≡ 257 },
    ghost all: { length board.free ≡ 32 },
    ghost marks: { Marks board },
    ghost frees: { Frees (M.meaning machine.now) board },
    ghost arrived: { Arrivals (M.meaning machine.now) (seen problem.now) board },
    ghost last: { board.length ≡ length_of (laid board) },
    ghost free_soon: { FreeSoon (M.meaning machine.now) board },
    ghost arrive_soon: { ArriveSoon (M.meaning machine.now) board },
}
