// What writing and reading leave of each other. These functions do nothing; their contracts are what they are for.
ghost use Rattle.graph.specs.Of.{net_of};
ghost use Rattle.words.specs.RoundTrips.{ReadsBack, WrittenBack};

use graph::graph::Graph;

// The words of any graph are accepted, and stand for that graph.
pub fn words_read_back(graph: &Graph)
    ensures { ReadsBack (net_of graph.now) }
{}

// Words that are accepted are written back equal.
pub fn accepted_words_stand(words: &[u32])
    ensures { WrittenBack words.now }
{}
