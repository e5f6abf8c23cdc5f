// One step of dividing.
ghost use Rattle.std.specs.Prelude.{◌≤◌, length, MatchOption};
ghost use Rattle.partition.specs.Blocks.{block_list};
ghost use Rattle.dividing.specs.Next.{NextMet};
ghost use Rattle.dividing.specs.Views.{net_of, blocks_of};

use crate::divided::Divided;
use crate::heaviest::heaviest;
use crate::partner::best_partner;
use joining::reach::Reach;
use machine::Machine;
use partition::partition::Partition;

// The heaviest block joined to its best partner; nothing where no more than one block is left.
pub(crate) fn step<M: Machine>(partition: &Partition<'_>, machine: &M) -> Option<Divided>
    ensures { MatchOption result (length (block_list (blocks_of partition.now)) ≤ 1) (NextMet (M.meaning machine.now) (net_of partition.now) (blocks_of partition.now)) }
{
    if partition.order.len() <= 1 {
        return None;
    }
    let reach = Reach::of(partition);
    let heavy = heaviest(partition, machine);
    let choice = best_partner(&reach, machine, heavy)?;
    let joined = reach.join(heavy, choice.partner)?;
    Some(Divided {
        joined,
        cost: choice.cost,
    })
}
