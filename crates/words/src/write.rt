// Writing a graph as job words.
ghost use Rattle.std.specs.Prelude.{◌≡◌, ℕ, ◌+◌, ◌*◌, ◌≤◌, List, length, refl};
ghost use Rattle.std.proofs.Math.Seq.{paste};
ghost use Rattle.std.specs.List.{flat_map};
ghost use Rattle.graph.specs.Of.{net_of};
ghost use Rattle.words.specs.Words.{task_words, link_words, write_answer, written};
ghost use Rattle.words.specs.RoundTrips.{ReadsBack};

use crate::layout::{EDITION, word_count};
use crate::round_trips::words_read_back;
use graph::graph::Graph;
use graph::records::{Link, Refusal, Task};

// A record that is written as W words. A trait and no closure, since its law gives how many words there are.
trait Written<const W: usize> {
    ghost written: { Self → List ℕ };

    fn words(&self) -> [u32; W]
        ensures { result ≡ written self.now };

    ghost wide: { (x : Self) → length (written x) ≡ W };
}

impl Written<2> for Task {
    ghost written = { task_words };

    ghost wide = { λ x. refl };

    fn words(&self) -> [u32; 2] {
        [self.time, self.newest]
    }
}

impl Written<3> for Link {
    ghost written = { link_words };

    ghost wide = { λ x. refl };

    fn words(&self) -> [u32; 3] {
        [self.receiver, self.size, self.next]
    }
}

// Writes records one after another, from a place on. Each place is a range: what is written through `zip` over
// `chunks_mut` is not known to a proof.
fn put_all<const W: usize, T: Written<W>>(records: &[T], at: usize, out: &mut [u32])
    requires few { W * length records.now ≤ 4096 }
    requires near { at ≤ 4096 }
    requires room { at + W * length records.now ≤ length out.old }
    ensures { out.new ≡ paste out.old at (flat_map T.written records.now) (W * length records.now) }
{
    for (i, record) in records.iter().enumerate() {
        let from = at + W * i;
        out[from..from + W].copy_from_slice(&record.words());
    }
}

// Writes the words of a graph to the front of the list, and answers how many they are. They read back to this graph.
pub fn write_words(graph: &Graph, out: &mut [u32]) -> Result<u32, Refusal>
    ensures value { result ≡ write_answer (net_of graph.now) out.old }
    ensures after { out.new ≡ written (net_of graph.now) out.old }
    ensures back { ReadsBack (net_of graph.now) }
{
    words_read_back(graph);
    let tasks = graph.tasks();
    let links = graph.links();
    let needed = word_count(tasks.len(), links.len());
    if out.len() < needed {
        return Err(Refusal::OutputTooShort(needed as u32));
    }
    out[..3].copy_from_slice(&[EDITION, tasks.len() as u32, links.len() as u32]);
    put_all(tasks, 3, out);
    put_all(links, 3 + 2 * tasks.len(), out);
    Ok(needed as u32)
}
