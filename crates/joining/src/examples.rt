// Joining in a small job, worked through by hand, as facts about what joining means.
ghost use Rattle.joining.specs.Examples.{FourTasksJoin};

pub fn four_tasks_join()
    ensures { FourTasksJoin }
{}
