// How long a schedule can be, beside every rival.
ghost use Rattle.bounds.specs.Bounds.{LengthsExplained, BoundOne, BoundTwo, PlacingStands};
ghost use Rattle.bounds.specs.Partitions.{SortedProcessed, BoundAfterDividing};

// Some chain that ends in a block finishing last accounts for the length.
pub fn lengths_explained()
    ensures { LengthsExplained }
{}

// P × length ≤ (2 × P − 1) × rival + P × delay chain, for every rival of the placed blocks.
pub fn bound_one()
    ensures { BoundOne }
{}

// The same, and length ≤ 2 × rival + delay chain, for every rival of the blocks that stood before dividing.
pub fn bound_two()
    ensures { BoundTwo }
{}

// The same where a machine that means the same did the dividing, and the times before are by that machine.
pub fn bound_after_dividing()
    ensures { BoundAfterDividing }
{}

// The blocks of a job's tasks, with a processing order, are all that the other theorems ask of a problem.
pub fn blocks_can_be_processed()
    ensures { SortedProcessed }
{}

// All that is promised of what placing gives.
pub fn placing_stands()
    ensures { PlacingStands }
{}
