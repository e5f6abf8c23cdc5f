// Taking a job in: its words are read, and the graph that they stand for is closed.
ghost use Rattle.std.specs.Prelude.{◌≡◌, Some};
ghost use Rattle.planner.specs.declared.intake_refusal.IntakeRefusal.TheVariants.{Read, Close};
ghost use Rattle.planner.specs.Intake.{taking_in, text_of};
ghost use Rattle.planner.specs.Of.{state_of};

use crate::intake_refusal::IntakeRefusal;
use crate::task_graph::TaskGraph;
use graph::records::Refusal;
use std::fmt;
use words::refusal::ReadRefusal;

impl From<ReadRefusal> for IntakeRefusal {
    ghost from_gives = { λ why given. given ≡ Read why };

    fn from(why: ReadRefusal) -> IntakeRefusal {
        IntakeRefusal::Read(why)
    }
}

impl From<Refusal> for IntakeRefusal {
    ghost from_gives = { λ why given. given ≡ Close why };

    fn from(why: Refusal) -> IntakeRefusal {
        IntakeRefusal::Close(why)
    }
}

// A refusal is shown by the numbers of each layer, the outermost first.
impl fmt::Display for IntakeRefusal {
    ghost output = { λ why. Some (text_of why) };

    fn fmt<W: fmt::Write>(&self, f: &mut fmt::Formatter<W>) -> fmt::Result {
        match self {
            IntakeRefusal::Read(why) => write!(f, "{why}"),
            IntakeRefusal::Close(why) => write!(f, "{why}"),
        }
    }
}

// Answers the number of tasks. Where the words are refused, the graph stays as it was; where closing is, it stays open.
pub fn take_in(graph: &mut TaskGraph, words: &[u32]) -> Result<u32, IntakeRefusal>
    ensures { (state_of graph.new, result) ≡ taking_in (state_of graph.old) words.now }
{
    graph.read_words(words)?;
    Ok(graph.close()?)
}
