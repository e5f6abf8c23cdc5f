// Two blocks of a partition that are to be one.
ghost use Rattle.std.specs.Prelude.{◌≡◌, true};
ghost use Rattle.chains.specs.Chains.{has};
ghost use Rattle.partition.specs.Blocks.{block_list};

use crate::reach::Reach;

mod united;

// Two numbers of blocks, on the table of what leads to what.
#[derive(Clone, Copy)]
pub(crate) struct Pair<'r, 'a> {
    pub(crate) reach: &'r Reach<'a>,
    pub(crate) one: u32,
    pub(crate) other: u32,
    ghost one_known: { has one (block_list reach.now.partition.blocks.now) ≡ true },
    ghost other_known: { has other (block_list reach.now.partition.blocks.now) ≡ true },
}
