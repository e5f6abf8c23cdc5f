// Dividing a small job, worked through by hand, as facts about what dividing means.
ghost use Rattle.dividing.specs.Examples.{FourTasksDivide};

pub fn four_tasks_divide()
    ensures { FourTasksDivide }
{}
