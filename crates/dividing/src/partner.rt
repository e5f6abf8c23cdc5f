// The block that another is best joined to.
ghost use Rattle.std.specs.Prelude.{◌≡◌, true};
ghost use Rattle.chains.specs.Chains.{has};
ghost use Rattle.partition.specs.Blocks.{block_list};
ghost use Rattle.dividing.specs.Choosing.{cheapest, offer, price_of};
ghost use Rattle.dividing.specs.Dividing.{others};
ghost use Rattle.dividing.specs.Views.{net_of, blocks_of};

use crate::choice::Choice;
use crate::held_apart::in_blocks;
use joining::reach::Reach;
use machine::Machine;

// A block with what the partition after joining another to it costs; nothing where one of the two is no block.
fn choice<M: Machine>(reach: &Reach<'_>, machine: &M, heavy: u32, block: u32) -> Option<Choice>
    ensures { result ≡ offer (M.meaning machine.now) (net_of reach.now.partition) (blocks_of reach.now.partition) heavy block }
{
    let joined = reach.join(heavy, block)?;
    Some(Choice {
        partner: block,
        cost: in_blocks(&reach.partition, &joined).cost(machine),
    })
}

// The less of these, the better the choice: the cost, and then the block.
fn rank(choice: &Choice) -> (u64, u32)
    ensures { result ≡ (choice.now.cost, choice.now.partner) }
{
    (choice.cost, choice.partner)
}

// Of the other blocks the one to which a block is joined for the least cost, of several the one with the least number;
// with that cost.
pub(crate) fn best_partner<M: Machine>(reach: &Reach<'_>, machine: &M, heavy: u32) -> Option<Choice>
    requires known { has heavy (block_list (blocks_of reach.now.partition)) ≡ true }
    ensures { result ≡ cheapest (price_of (M.meaning machine.now) (net_of reach.now.partition) (blocks_of reach.now.partition) heavy) (others heavy (blocks_of reach.now.partition)) }
{
    let order = reach.partition.order;
    order
        .iter()
        .copied()
        .filter(|block| *block != heavy)
        .filter_map(|block| choice(reach, machine, heavy, block))
        .min_by_key(rank)
}
