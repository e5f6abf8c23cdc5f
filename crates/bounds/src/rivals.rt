// What no rival can beat: any valid schedule of the same blocks when messages take no time.
ghost use Rattle.bounds.specs.Rivals.{ChainsFit, WorkFits, RivalsOutlast, ValidRival};

// The blocks of a chain run one after the other, so no rival is shorter than a chain.
pub fn chains_fit()
    ensures { ChainsFit }
{}

// No rival does more work than its processors have time for.
pub fn work_fits()
    ensures { WorkFits }
{}

// No rival, nor any valid schedule, is shorter than the critical path or the P-th part of the cost.
pub fn rivals_outlast()
    ensures outlast { RivalsOutlast }
    ensures itself { ValidRival }
{}
