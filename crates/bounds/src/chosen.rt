// What is true of every schedule whose rows were chosen step by step.
ghost use Rattle.bounds.specs.Schedules.{PlacingChooses, StartsRise, ChosenValid, ChosenWaits};

// Placing by any lawful order chooses each row, and leaves no block out.
pub fn placing_chooses()
    ensures { PlacingChooses }
{}

// Starts never fall from row to row.
pub fn starts_never_fall()
    ensures { StartsRise }
{}

// Chosen rows that leave no block out are a valid schedule.
pub fn chosen_rows_are_valid()
    ensures { ChosenValid }
{}

// No block that is earlier in the order waits while it could run.
pub fn no_earlier_block_waits()
    ensures { ChosenWaits }
{}
