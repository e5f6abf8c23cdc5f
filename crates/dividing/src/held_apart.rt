// The blocks of a partition held apart from it, and a partition's tasks and links in such blocks.
ghost use Rattle.std.specs.Prelude.{◌≡◌, ◌≤◌, length};
ghost use Rattle.joining.specs.Outcomes.{blocks_in, order_in};
ghost use Rattle.dividing.specs.Tables.{Tables};
ghost use Rattle.dividing.specs.Views.{net_of, Regroups};

use fixed_list::list::FixedList;
use joining::joined::Joined;
use partition::partition::Partition;

// The blocks and the order of a partition.
pub(crate) fn held_apart(partition: &Partition<'_>) -> Joined
    ensures partition { blocks_in result ≡ partition.now.blocks.now }
    ensures order { order_in result ≡ partition.now.order.now }
    ensures tables { Tables (length partition.now.tasks.now) partition.now.links.now result }
{
    let blocks = FixedList::from_slice(partition.blocks);
    let order = FixedList::from_slice(partition.order);
    Joined { blocks, order }
}

// The tasks and links of a partition in other blocks.
pub(crate) fn in_blocks<'a>(partition: &Partition<'a>, joined: &'a Joined) -> Partition<'a>
    requires sorted { Regroups partition.now joined.now }
    ensures net { net_of result ≡ net_of partition.now }
    ensures blocks { result.blocks.now ≡ blocks_in joined.now }
{
    let blocks = joined.blocks();
    let order = joined.order();
    Partition {
        tasks: partition.tasks,
        links: partition.links,
        blocks,
        order,
    }
}
