// A small job beside a rival, as facts about the definitions.
ghost use Rattle.bounds.specs.Examples.{FourBlocksAreNear};

pub fn four_blocks_are_near()
    ensures { FourBlocksAreNear }
{}
