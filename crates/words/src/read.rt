// Reading job words into a graph: everything is tested before the graph is touched.
ghost use Rattle.std.specs.Prelude.{◌≡◌};
ghost use Rattle.graph.specs.Of.{net_of};
ghost use Rattle.words.specs.Reading.{read_step};
ghost use Rattle.words.specs.RoundTrips.{WrittenBack};

use crate::job::JobWords;
use crate::refusal::ReadRefusal;
use crate::round_trips::accepted_words_stand;
use crate::tested::TestedJob;
use graph::graph::Graph;

// Replaces the tasks and links of a graph by those that the words stand for, and answers how many tasks there are.
// Words that are accepted are written back equal.
pub fn read_words(graph: &mut Graph, words: &[u32]) -> Result<u32, ReadRefusal>
    ensures after { (net_of graph.new, result) ≡ read_step (net_of graph.old) words.now }
    ensures back { WrittenBack words.now }
{
    accepted_words_stand(words);
    let job = JobWords::read(words)?;
    let tested = TestedJob::read(job)?;
    tested.check_links()?;
    graph.clear();
    tested.add_tasks(graph);
    tested.add_links(graph);
    Ok(job.task_count() as u32)
}
