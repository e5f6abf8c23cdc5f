// What another crate knows of the machines that it makes.
ghost use Rattle.std.specs.Prelude.{◌≡◌, Some, None, Err};
ghost use Rattle.machine.specs.Kinds.{making_refusal, bus_allows, bus_model};
ghost use Rattle.machine.specs.Model.{delay_answer};

use machine::{Bus, Figures, Machine, MachineRefusal};

// The delay between two processors of a bus that is made for the question.
pub fn bus_delay(
    processors: u32,
    figures: Figures,
    from: u32,
    to: u32,
    size: u32,
) -> Result<u64, MachineRefusal>
    ensures { elim (making_refusal (bus_allows processors) processors figures) [ None ↦ result ≡ delay_answer (bus_model processors figures) from to size | Some why ↦ result ≡ Err why ] }
{
    Bus::new(processors, figures)?.delay(from, to, size)
}
