// The union of a pair: the blocks that it takes in, and the partition and the order in which they are one.
ghost use Rattle.std.specs.Prelude.{◌≡◌, ℕ, ◌+◌, ◌≤◌, Bool, ◌||◌, ◌++◌, length, filter};
ghost use Rattle.fixed_list.specs.Items.{items_of};
ghost use Rattle.partition.specs.Joins.{least_among, united, order_after};
ghost use Rattle.joining.specs.Outcomes.{JoinedIn};
ghost use Rattle.joining.specs.Pairs.{taken_in, before, behind, reach_of, blocks_of, order_of};

use crate::joined::Joined;
use crate::pair::Pair;
use chains::limits::MAX_BLOCKS;
use fixed_list::list::FixedList;

// Appends the blocks of a list that pass a test, in their order.
fn append<F: Fn(u32) -> bool>(to: &mut FixedList<u32, MAX_BLOCKS>, blocks: &[u32], passes: F)
    ghost test: { ℕ → Bool }
    requires callable { F.IsAlwaysCallable passes }
    requires tests { (block : ℕ) (answer : Bool) → F.post passes block answer → answer ≡ test block }
    requires room { length (items_of to.old) + length (filter test blocks.now) ≤ 256 }
    ensures { items_of to.new ≡ items_of to.old ++ filter test blocks.now }
{
    for block in blocks {
        if passes(*block) {
            to.push(*block);
        }
    }
}

impl Pair<'_, '_> {
    // Whether a block is one of the two, or lies on a path between them in either direction.
    fn takes_in(&self, block: u32) -> bool
        ensures { result ≡ taken_in self.now block }
    {
        let Pair { reach, one, other } = *self;
        block == one
            || block == other
            || (reach.leads(one, block) && reach.leads(block, other))
            || (reach.leads(other, block) && reach.leads(block, one))
    }

    // Whether a block leads to one of the two.
    fn is_led_to_from(&self, block: u32) -> bool
        ensures { result ≡ (reach_of self.now block self.now.one || reach_of self.now block self.now.other) }
    {
        self.reach.leads(block, self.one) || self.reach.leads(block, self.other)
    }

    // Whether a block stands before the union in the processing order after joining.
    fn is_before(&self, block: u32) -> bool
        ensures { result ≡ before self.now block }
    {
        self.is_led_to_from(block) && !self.takes_in(block)
    }

    // Whether it stands behind the union.
    fn is_behind(&self, block: u32) -> bool
        ensures { result ≡ behind self.now block }
    {
        !(self.is_led_to_from(block) || self.takes_in(block))
    }

    // The least number of a block of the union.
    fn number(&self) -> u32
        ensures { result ≡ least_among (taken_in self.now) self.now.one (blocks_of self.now) }
    {
        let reach = self.reach;
        reach
            .partition
            .blocks
            .iter()
            .copied()
            .filter(|block| self.takes_in(*block))
            .fold(self.one, |least, block| least.min(block))
    }

    // The block of each task after joining.
    fn blocks_after(&self, number: u32) -> FixedList<u32, MAX_BLOCKS>
        ensures { items_of result ≡ united (taken_in self.now) number (blocks_of self.now) }
    {
        let reach = self.reach;
        let mut after = FixedList::new();
        for block in reach.partition.blocks {
            after.push(if self.takes_in(*block) {
                number
            } else {
                *block
            });
        }
        after
    }

    // The processing order after joining: the blocks before the union, the union, and the blocks behind it.
    fn order_after(&self, number: u32) -> FixedList<u32, MAX_BLOCKS>
        ensures { items_of result ≡ order_after (reach_of self.now) self.now.one self.now.other number (order_of self.now) }
    {
        let reach = self.reach;
        let order = reach.partition.order;
        let mut after = FixedList::new();
        append(&mut after, order, |block| self.is_before(block));
        after.push(number);
        append(&mut after, order, |block| self.is_behind(block));
        after
    }

    // The partition after joining the two.
    pub(crate) fn joined(&self) -> Joined
        ensures { JoinedIn self.now.reach.now.partition self.now.one self.now.other result }
    {
        let number = self.number();
        let blocks = self.blocks_after(number);
        let order = self.order_after(number);
        Joined { blocks, order }
    }
}
