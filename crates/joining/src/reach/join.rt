// Joining two blocks of a partition.
ghost use Rattle.std.specs.Prelude.{◌≡◌};
ghost use Rattle.chains.specs.Chains.{has};
ghost use Rattle.partition.specs.Blocks.{block_list};
ghost use Rattle.joining.specs.Outcomes.{AnswersJoin};

use crate::joined::Joined;
use crate::pair::Pair;
use crate::reach::Reach;
use partition::partition::Partition;

// Whether a number is that of a block: the task of that number numbers its own block.
fn is_block(blocks: &[u32], number: u32) -> bool
    ensures { result ≡ has number (block_list blocks.now) }
{
    number > 0 && blocks.get(number as usize - 1) == Some(&number)
}

impl Reach<'_> {
    // The partition after joining two blocks with all blocks on paths between them; nothing where one of the numbers is
    // no block's. Two passes over the tasks and two over the blocks.
    pub fn join(&self, one: u32, other: u32) -> Option<Joined>
        ensures { AnswersJoin self.now.partition one other result }
    {
        let blocks = self.partition.blocks;
        // Not `then`: its closure was not proved to make the pair, as it does not know that both are blocks.
        if is_block(blocks, one) && is_block(blocks, other) {
            let pair = Pair {
                reach: self,
                one,
                other,
            };
            Some(pair.joined())
        } else {
            None
        }
    }
}

// The partition after joining two blocks with all blocks on paths between them; nothing where one of the numbers is no
// block's. Who joins many pairs makes the table once.
pub fn join(partition: &Partition<'_>, one: u32, other: u32) -> Option<Joined>
    ensures { AnswersJoin partition.now one other result }
{
    Reach::of(partition).join(one, other)
}
