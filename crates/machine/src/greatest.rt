// The greatest delay of any machine, for a size.
ghost use Rattle.std.specs.Prelude.{ℕ, ◌<◌, MatchResult};
ghost use Rattle.machine.specs.Greatest.{GreatestOf, GreatestFrom, GreatestDelay, Oversized};

use crate::machine::Machine;
use crate::refusal::MachineRefusal;

// The greatest of what the processors answer, or the first refusal.
fn greatest_of<F: Fn(u32) -> Result<u64, MachineRefusal>>(
    processors: u32,
    answer: F,
) -> Result<u64, MachineRefusal>
    requires { F.IsAlwaysCallable answer }
    ensures { MatchResult result (λ d. GreatestOf processors (λ p x. F.post answer p (Ok x)) d) (λ why. (p : ℕ) × (p < processors) × F.post answer p (Err why)) }
{
    let mut greatest = 0;
    for processor in 0..processors {
        greatest = greatest.max(answer(processor)?);
    }
    Ok(greatest)
}

// The greatest delay from one processor of the machine.
fn greatest_from<M: Machine>(machine: &M, from: u32, size: u32) -> Result<u64, MachineRefusal>
    ensures { MatchResult result (λ delay. GreatestFrom (M.meaning machine.now) from size delay) (λ why. from < (M.meaning machine.now).processors → Oversized size why) }
{
    greatest_of(machine.processors(), |to| machine.delay(from, to, size))
}

// The greatest delay over all pairs of processors; a size above its limit is refused.
pub fn greatest_delay<M: Machine>(machine: &M, size: u32) -> Result<u64, MachineRefusal>
    ensures { MatchResult result (λ delay. GreatestDelay (M.meaning machine.now) size delay) (λ why. Oversized size why) }
{
    greatest_of(
        machine.processors(),
        |from| greatest_from(machine, from, size),
    )
}
