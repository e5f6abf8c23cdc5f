// A wait before each delay of any machine.
ghost use Rattle.std.specs.Prelude.{◌≡◌, ◌≤◌};
ghost use Rattle.machine.specs.Layers.{lengthened, waited};
ghost use Rattle.machine.specs.Layered.{waited_lawful};

use crate::machine::Machine;
use crate::refusal::MachineRefusal;

// The machine below, and the wait.
#[derive(Clone, Copy, Debug, PartialEq, Eq, Drop)]
pub struct Waiting<M> {
    pub below: M,
    pub wait: u32,
}

const LONGEST_WAIT: u32 = 1_000_000;

const LONGEST_DELAY: u64 = 1_000_000_000;

// A delay between different processors, with the wait.
fn longer(delay: u64, wait: u32) -> u64
    ensures { result ≡ lengthened wait delay }
{
    delay
        .saturating_add(u64::from(wait.min(LONGEST_WAIT)))
        .min(LONGEST_DELAY)
}

impl<M: Machine> Machine for Waiting<M> {
    ghost meaning = { λ w. waited w.wait (M.Machine.meaning w.below) };

    ghost lawful = { λ w. waited_lawful w.wait (M.Machine.meaning w.below) (M.Machine.lawful w.below) };

    fn processors(&self) -> u32 {
        self.below.processors()
    }

    fn delay(&self, from: u32, to: u32, size: u32) -> Result<u64, MachineRefusal> {
        let delay = self.below.delay(from, to, size)?;
        if from == to {
            return Ok(0);
        }
        Ok(longer(delay, self.wait))
    }

    // What a layer does not change it hands on, in one line each: a shared form would be no shorter.
    fn startup(&self) -> u64 {
        self.below.startup()
    }

    fn reading(&self, size: u32) -> Result<u64, MachineRefusal> {
        self.below.reading(size)
    }

    fn writing(&self, size: u32) -> Result<u64, MachineRefusal> {
        self.below.writing(size)
    }
}
