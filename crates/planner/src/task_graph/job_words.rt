// Job words, written from and read into a task graph, at any stage.
ghost use Rattle.std.specs.Prelude.{◌≡◌};
ghost use Rattle.words.specs.RoundTrips.{ReadsBack, WrittenBack};
ghost use Rattle.words.specs.Words.{write_answer, written};
ghost use Rattle.planner.specs.Reading.{reading};
ghost use Rattle.planner.specs.Of.{state_of};

use crate::records::Stage;
use crate::task_graph::TaskGraph;
use graph::records::Refusal;
use words::read::read_words;
use words::refusal::ReadRefusal;
use words::write::write_words;

impl TaskGraph {
    // Writes the words of the tasks and links to the front of the list, and answers how many they are. They read
    // back to the same tasks and links.
    pub fn write_words(&self, out: &mut [u32]) -> Result<u32, Refusal>
        ensures value { result ≡ write_answer (state_of self.now).net out.old }
        ensures after { out.new ≡ written (state_of self.now).net out.old }
        ensures back { ReadsBack (state_of self.now).net }
    {
        write_words(&self.graph, out)
    }

    // Replaces tasks and links by those of the words, leaves the graph open, and answers the number of tasks.
    // Words that are accepted are written back equal.
    pub fn read_words(&mut self, words: &[u32]) -> Result<u32, ReadRefusal>
        ensures after { (state_of self.new, result) ≡ reading (state_of self.old) words.now }
        ensures back { WrittenBack words.now }
    {
        let n = read_words(&mut self.graph, words)?;
        self.stage = Stage::Open;
        self.blocks.clear();
        Ok(n)
    }
}
