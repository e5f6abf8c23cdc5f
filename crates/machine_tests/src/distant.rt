// A machine of this crate's own, near the limit of delays.
ghost use Rattle.std.specs.Prelude.{◌≡◌};
ghost use Rattle.machine_tests.specs.Distant.{distant};
ghost use Rattle.std.proofs.Common.{rules};

use machine::{Machine, MachineRefusal, check_question, check_size};

// Two processors, far apart.
#[derive(Clone, Copy)]
pub struct Distant;

impl Machine for Distant {
    ghost meaning = { λ _. distant };

    ghost lawful = { Prim.search rules };

    fn processors(&self) -> u32 {
        2
    }

    fn delay(&self, from: u32, to: u32, size: u32) -> Result<u64, MachineRefusal> {
        check_question(2, from, to, size)?;
        Ok(if from == to { 0 } else { 999_999_998 })
    }

    fn startup(&self) -> u64 {
        0
    }

    fn reading(&self, size: u32) -> Result<u64, MachineRefusal> {
        check_size(size)?;
        Ok(0)
    }

    fn writing(&self, size: u32) -> Result<u64, MachineRefusal> {
        check_size(size)?;
        Ok(0)
    }
}
