// A machine of one of two types, so that one list can hold machines of both.
ghost use Rattle.machine.specs.OneOfTwo.{either_model};
ghost use Rattle.std.proofs.Common.{rules};

use crate::machine::Machine;
use crate::refusal::MachineRefusal;
use either::{Either, for_both};

impl<L: Machine, R: Machine> Machine for Either<L, R> {
    ghost meaning = { λ e. either_model L.Machine.meaning R.Machine.meaning e };

    ghost lawful = { Prim.search rules };

    fn processors(&self) -> u32 {
        for_both!(self, machine => machine.processors())
    }

    fn delay(&self, from: u32, to: u32, size: u32) -> Result<u64, MachineRefusal> {
        for_both!(self, machine => machine.delay(from, to, size))
    }

    fn startup(&self) -> u64 {
        for_both!(self, machine => machine.startup())
    }

    fn reading(&self, size: u32) -> Result<u64, MachineRefusal> {
        for_both!(self, machine => machine.reading(size))
    }

    fn writing(&self, size: u32) -> Result<u64, MachineRefusal> {
        for_both!(self, machine => machine.writing(size))
    }
}
