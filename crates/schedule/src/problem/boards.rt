// The board without rows, and with one row more.
ghost use Rattle.std.specs.Prelude.{◌≡◌, ◌+◌, ◌<◌, ◌≤◌, max, true, [], ◌∷◌, ◌++◌, slice_index, slice_set};
ghost use Rattle.schedule.specs.Boards.{laid, count, Fitting};

use crate::board::Board;
use crate::limits::{MAX_PROCESSORS, NUMBERS};
use crate::order::Priority;
use crate::problem::Problem;
use crate::problem::arrivals::Sender;
use crate::problem::bench::Bench;
use crate::rows::Row;
use fixed_list::list::FixedList;
use machine::Machine;

impl Board {
    // The board with the row, its block placed, its processor free no sooner than its finish, and no arrival of its data.
    fn note(&mut self, row: &Row)
        requires room { count self.old < 256 }
        requires block { row.now.block ≤ 256 }
        requires processor { row.now.processor < 32 }
        ensures rows { laid self.new ≡ laid self.old ++ row.now ∷ [] }
        ensures placed { self.new.placed ≡ slice_set self.old.placed row.now.block true }
        ensures free { self.new.free ≡ slice_set self.old.free row.now.processor (max (slice_index self.old.free row.now.processor) row.now.finish) }
        ensures arrivals { self.new.arrivals ≡ self.old.arrivals }
        ensures length { self.new.length ≡ max self.old.length row.now.finish }
    {
        let processor = row.processor as usize;
        self.rows.push(*row);
        self.placed[row.block as usize] = true;
        self.free[processor] = self.free[processor].max(row.finish);
        self.length = self.length.max(row.finish);
    }
}

impl<'a, M: Machine, O: Priority> Bench<'a, M, O> {
    // The board has no rows.
    pub(crate) fn new(problem: &'a Problem<'a>, machine: &'a M, priority: &'a O) -> Self
        ensures problem { result.problem.now ≡ problem.now }
        ensures machine { result.machine.now ≡ machine.now }
        ensures priority { result.priority.now ≡ priority.now }
        ensures rows { laid result.board ≡ [] }
    {
        let board = Board {
            rows: FixedList::new(),
            placed: [false; NUMBERS],
            free: [0; MAX_PROCESSORS],
            arrivals: [[0; MAX_PROCESSORS]; NUMBERS],
            length: 0,
        };
        Bench {
            problem,
            machine,
            priority,
            board,
        }
    }

    // The board with the row, and with all that its block sends.
    pub(crate) fn add_row(&mut self, row: &Row)
        requires room { count self.old.board < 256 }
        requires fits { Fitting (M.Machine.meaning self.old.machine.now).processors (count self.old.board) (Some row.now) }
        ensures problem { self.new.problem.now ≡ self.old.problem.now }
        ensures machine { self.new.machine.now ≡ self.old.machine.now }
        ensures priority { self.new.priority.now ≡ self.old.priority.now }
        ensures rows { laid self.new.board ≡ laid self.old.board ++ row.now ∷ [] }
    {
        self.board.note(row);
        let sender = Sender {
            machine: self.machine,
            row: *row,
        };
        sender.send(self.problem, &mut self.board.arrivals);
    }
}
