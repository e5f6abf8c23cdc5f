// The seven figures of a bus or a cube.
ghost use Rattle.std.specs.Prelude.{◌≡◌};
ghost use Rattle.machine.specs.Figures.{first_large, linear, step_delay, reading_time, writing_time};
ghost use Rattle.machine.specs.Model.{sized};

use crate::machine::check_size;
use crate::refusal::MachineRefusal;

// A time is its base, and its unit for each unit of a size.
#[derive(Clone, Copy, Debug, Default, PartialEq, Eq)]
pub struct Figures {
    pub delay_base: u32,
    pub delay_unit: u32,
    pub startup: u32,
    pub reading_base: u32,
    pub reading_unit: u32,
    pub writing_base: u32,
    pub writing_unit: u32,
}

const LARGEST_BASE: u32 = 10_000;

const LARGEST_UNIT: u32 = 99;

const LONGEST_STARTUP: u32 = 100_000;

// base + unit × size
fn linear_time(base: u32, unit: u32, size: u32) -> u64
    ensures { result ≡ linear base unit size }
{
    u64::from(base) + u64::from(unit) * u64::from(size)
}

// The time at a size that is within its limit.
fn sized_time(base: u32, unit: u32, size: u32) -> Result<u64, MachineRefusal>
    ensures { result ≡ sized size (linear base unit size) }
{
    check_size(size)?;
    Ok(linear_time(base, unit, size))
}

impl Figures {
    // The place of the first figure above its limit, from 1.
    pub(crate) fn first_too_large(&self) -> Option<u32>
        ensures { result ≡ first_large self.now }
    {
        [
            (1, self.delay_base, LARGEST_BASE),
            (2, self.delay_unit, LARGEST_UNIT),
            (3, self.startup, LONGEST_STARTUP),
            (4, self.reading_base, LARGEST_BASE),
            (5, self.reading_unit, LARGEST_UNIT),
            (6, self.writing_base, LARGEST_BASE),
            (7, self.writing_unit, LARGEST_UNIT),
        ]
        .iter()
        .find(|(_, figure, limit)| figure > limit)
        .map(|(place, _, _)| *place)
    }

    // The delay of one step between processors.
    pub(crate) fn step_delay(&self, size: u32) -> u64
        ensures { result ≡ step_delay self.now size }
    {
        linear_time(self.delay_base, self.delay_unit, size)
    }

    pub(crate) fn reading_time(&self, size: u32) -> Result<u64, MachineRefusal>
        ensures { result ≡ sized size (reading_time self.now size) }
    {
        sized_time(self.reading_base, self.reading_unit, size)
    }

    pub(crate) fn writing_time(&self, size: u32) -> Result<u64, MachineRefusal>
        ensures { result ≡ sized size (writing_time self.now size) }
    {
        sized_time(self.writing_base, self.writing_unit, size)
    }
}
