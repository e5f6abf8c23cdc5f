// Rows of a small job, as facts about what checking means.
ghost use Rattle.checking.specs.Examples.{FourBlocksChecked};

// Two lists of rows of one job, of which one is accepted and the other starts a block before its data is there.
pub fn four_blocks_checked()
    ensures { FourBlocksChecked }
{}
