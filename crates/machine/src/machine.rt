// What code over any machine may ask of it.
ghost use Rattle.std.specs.Prelude.{◌≡◌};
ghost use Rattle.machine.specs.Model.{Model, Lawful, asked, sized, delay_answer, reading_answer, writing_answer};

use crate::refusal::MachineRefusal;

// The largest size that a machine answers for.
pub const LARGEST_SIZE: u32 = 1_000_000;

pub trait Machine {
    // What the machine means: every answer is a function of it, so the same question has the same answer each time.
    ghost meaning: { Self → Model };

    // How many processors there are; they are numbered from 0.
    fn processors(&self) -> u32
        ensures { result ≡ (meaning self.now).processors };

    // How long data of this size is on its way from one processor to another.
    fn delay(&self, from: u32, to: u32, size: u32) -> Result<u64, MachineRefusal>
        ensures { result ≡ delay_answer (meaning self.now) from to size };

    // How long a block takes to start.
    fn startup(&self) -> u64
        ensures { result ≡ (meaning self.now).startup };

    // How long data of this size takes to be read.
    fn reading(&self, size: u32) -> Result<u64, MachineRefusal>
        ensures { result ≡ reading_answer (meaning self.now) size };

    // How long data of this size takes to be written.
    fn writing(&self, size: u32) -> Result<u64, MachineRefusal>
        ensures { result ≡ writing_answer (meaning self.now) size };

    // The laws that each machine keeps.
    ghost lawful: { (m : Self) → Lawful (meaning m) };
}

// Whether a machine answers for this size.
pub fn check_size(size: u32) -> Result<(), MachineRefusal>
    ensures { result ≡ sized size tt }
{
    if size > LARGEST_SIZE {
        return Err(MachineRefusal::SizeTooLarge);
    }
    Ok(())
}

// Whether a machine of so many processors answers for these two and this size.
pub fn check_question(processors: u32, from: u32, to: u32, size: u32) -> Result<(), MachineRefusal>
    ensures { result ≡ asked processors from to size tt }
{
    if from >= processors {
        return Err(MachineRefusal::NoSuchProcessor(from));
    }
    if to >= processors {
        return Err(MachineRefusal::NoSuchProcessor(to));
    }
    check_size(size)
}
