// A small job worked through by hand, as facts about what messages, costs and joining mean.
ghost use Rattle.partition.specs.Examples.{FourTasksStand};

pub fn four_tasks_stand()
    ensures { FourTasksStand }
{}
