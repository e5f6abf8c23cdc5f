// Any machine without one of its processors.
ghost use Rattle.std.specs.Prelude.{◌≡◌, ◌<◌};
ghost use Rattle.machine.specs.Layers.{hides, lowered, withheld};
ghost use Rattle.machine.specs.Layered.{withheld_lawful};

use crate::machine::{Machine, check_question};
use crate::refusal::MachineRefusal;

// The machine below, and the processor of it that is hidden.
#[derive(Clone, Copy, Debug, PartialEq, Eq, Drop)]
pub struct Withholding<M> {
    pub below: M,
    pub hidden: u32,
}

impl<M: Machine> Withholding<M> {
    // Whether the processor is there to be hidden, and another is left.
    fn is_hiding(&self) -> bool
        ensures { result ≡ hides self.now.hidden (M.meaning self.now.below) }
    {
        let processors = self.below.processors();
        processors > 1 && self.hidden < processors
    }

    // The number that a processor here has below.
    fn lower(&self, processor: u32) -> u32
        requires { processor < (withheld self.now.hidden (M.meaning self.now.below)).processors }
        ensures { result ≡ lowered self.now.hidden (M.meaning self.now.below) processor }
    {
        if self.is_hiding() && processor >= self.hidden {
            processor + 1
        } else {
            processor
        }
    }
}

impl<M: Machine> Machine for Withholding<M> {
    ghost meaning = { λ w. withheld w.hidden (M.Machine.meaning w.below) };

    ghost lawful = { λ w. withheld_lawful w.hidden (M.Machine.meaning w.below) (M.Machine.lawful w.below) };

    fn processors(&self) -> u32 {
        let processors = self.below.processors();
        if self.is_hiding() {
            processors - 1
        } else {
            processors
        }
    }

    fn delay(&self, from: u32, to: u32, size: u32) -> Result<u64, MachineRefusal> {
        check_question(self.processors(), from, to, size)?;
        self.below.delay(self.lower(from), self.lower(to), size)
    }

    // What a layer does not change it hands on, in one line each: a shared form would be no shorter.
    fn startup(&self) -> u64 {
        self.below.startup()
    }

    fn reading(&self, size: u32) -> Result<u64, MachineRefusal> {
        self.below.reading(size)
    }

    fn writing(&self, size: u32) -> Result<u64, MachineRefusal> {
        self.below.writing(size)
    }
}
