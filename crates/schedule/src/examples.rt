// A small job placed by hand, as facts about what placing means.
ghost use Rattle.schedule.specs.Examples.{FourBlocksStand};

pub fn four_blocks_stand()
    ensures { FourBlocksStand }
{}
