// The blocks and the order as slices.
ghost use Rattle.std.specs.Prelude.{◌≡◌};
ghost use Rattle.joining.specs.Outcomes.{blocks_in, order_in};

use crate::joined::Joined;

impl Joined {
    // The block of each task.
    pub fn blocks(&self) -> &[u32]
        ensures { result.now ≡ blocks_in self.now }
    {
        self.blocks.as_slice()
    }

    // The blocks in their processing order.
    pub fn order(&self) -> &[u32]
        ensures { result.now ≡ order_in self.now }
    {
        self.order.as_slice()
    }
}
