// Dividing: the earliest cheapest of the partitions that are met.
ghost use Rattle.std.specs.Prelude.{◌≡◌, ◌≤◌, length, MatchOption};
ghost use Rattle.partition.specs.Blocks.{block_list};
ghost use Rattle.joining.specs.Outcomes.{blocks_in};
ghost use Rattle.dividing.specs.Choosing.{cheaper};
ghost use Rattle.dividing.specs.Dividing.{met};
ghost use Rattle.dividing.specs.Kept.{Kept};
ghost use Rattle.dividing.specs.Laws.{MetRightly, Divides};
ghost use Rattle.dividing.specs.Next.{NextMet};
ghost use Rattle.dividing.specs.Views.{net_of, blocks_of, Regroups};

use crate::divided::Divided;
use crate::held_apart::{held_apart, in_blocks};
use crate::step::step;
use joining::joined::Joined;
use machine::Machine;
use partition::partition::Partition;

// The cheaper of what was kept and one more, the former where they cost the same.
fn cheaper(kept: Option<Divided>, more: Divided) -> Divided
    ensures { result ≡ cheaper kept more }
{
    kept.filter(|kept| kept.cost <= more.cost).unwrap_or(more)
}

// What is met after other blocks of a partition's tasks; nothing where no more than one block is left.
fn after<M: Machine>(partition: &Partition<'_>, present: &Joined, machine: &M) -> Option<Divided>
    requires sorted { Regroups partition.now present.now }
    ensures { MatchOption result (length (block_list (blocks_in present.now)) ≤ 1) (NextMet (M.meaning machine.now) (net_of partition.now) (blocks_in present.now)) }
{
    step(&in_blocks(partition, present), machine)
}

// The partitions met are gone through down to one block, and the earliest cheapest is kept.
fn run<M: Machine>(partition: &Partition<'_>, machine: &M) -> Divided
    ensures { Kept (M.meaning machine.now) (net_of partition.now) (blocks_of partition.now) result }
{
    let mut kept = None;
    let mut present = Divided {
        joined: held_apart(partition),
        cost: partition.cost(machine),
    };
    while let Some(next) = after(partition, &present.joined, machine) {
        kept = Some(cheaper(kept, present));
        present = next;
    }
    cheaper(kept, present)
}

// What holds of the partitions that are met, and of the one that is kept.
fn promises<M: Machine>(partition: &Partition<'_>, machine: &M, kept: &Divided)
    requires kept { Kept (M.meaning machine.now) (net_of partition.now) (blocks_of partition.now) kept.now }
    ensures met { MetRightly (M.meaning machine.now) (net_of partition.now) (blocks_of partition.now) (met (M.meaning machine.now) (net_of partition.now) (blocks_of partition.now)) }
    ensures divides { Divides (M.meaning machine.now) (net_of partition.now) (blocks_of partition.now) (blocks_in kept.now.joined) }
{}

// A partition is divided: while more than one block is left, the block with the greatest overhead is joined to the block
// with which the partition then costs least, ties to the least number; of the partitions met, the start included, the
// earliest with the least cost is the result.
pub fn divide<M: Machine>(partition: &Partition<'_>, machine: &M) -> Divided
    ensures kept { Kept (M.meaning machine.now) (net_of partition.now) (blocks_of partition.now) result }
    ensures met { MetRightly (M.meaning machine.now) (net_of partition.now) (blocks_of partition.now) (met (M.meaning machine.now) (net_of partition.now) (blocks_of partition.now)) }
    ensures divides { Divides (M.meaning machine.now) (net_of partition.now) (blocks_of partition.now) (blocks_in result.joined) }
{
    let kept = run(partition, machine);
    promises(partition, machine, &kept);
    kept
}
