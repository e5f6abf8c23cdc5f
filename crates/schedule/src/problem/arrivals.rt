// When data arrives on each processor.
ghost use Rattle.std.specs.Prelude.{◌^◌, ◌<◌, ◌≤◌, [], ◌∷◌};
ghost use Rattle.schedule.specs.Boards.{Arrives, Receives};

use crate::limits::{MAX_PROCESSORS, NUMBERS};
use crate::problem::Problem;
use crate::rows::Row;
use chains::message::Message;
use machine::Machine;

// A row whose block sends, and the machine over which its data goes.
#[derive(Drop)]
pub(crate) struct Sender<'a, M: Machine> {
    pub machine: &'a M,
    pub row: Row,
    ghost from: { row.processor < (M.meaning machine.now).processors },
    ghost early: { row.finish < 2 ^ 60 },
}

impl<'a, M: Machine> Sender<'a, M> {
    // When data is on each processor, once what leaves at the row's finish has come too.
    fn arrive(&self, size: u32, on: &mut [u64; MAX_PROCESSORS])
        requires { size ≤ 1000000 }
        ensures { Arrives (M.meaning self.now.machine.now) self.now.row size on.old on.new }
    {
        let from = self.row.processor as u32;
        let processors = self.machine.processors() as usize;
        for (to, time) in on[..processors].iter_mut().enumerate() {
            let delay = self.machine.delay(from, to as u32, size).unwrap_or(0);
            *time = (*time).max(self.row.finish + delay);
        }
    }

    // The table of arrivals once a message that leaves at the row's finish has come, if the row's block sends it.
    fn receive(&self, message: &Message, arrivals: &mut [[u64; MAX_PROCESSORS]; NUMBERS])
        requires small { message.now.size ≤ 1000000 }
        requires known { message.now.to ≤ 256 }
        ensures { Receives (M.meaning self.now.machine.now) self.now.row (message.now ∷ []) arrivals.old arrivals.new }
    {
        if u64::from(message.from) == self.row.block {
            self.arrive(message.size, &mut arrivals[message.to as usize]);
        }
    }

    // The table of arrivals once all that the row's block sends has come.
    pub(crate) fn send(&self, problem: &Problem, arrivals: &mut [[u64; MAX_PROCESSORS]; NUMBERS])
        ensures { Receives (M.meaning self.now.machine.now) self.now.row problem.now.messages.now arrivals.old arrivals.new }
    {
        for message in problem.messages {
            self.receive(message, arrivals);
        }
    }
}
