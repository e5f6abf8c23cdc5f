// Small graphs worked through by hand, as facts about what the calls mean.
ghost use Rattle.planner.specs.Examples.{WorkedGraphsStand};

pub fn worked_graphs_stand()
    ensures { WorkedGraphsStand }
{}
