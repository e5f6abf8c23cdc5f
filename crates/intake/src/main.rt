// Takes a logger's job in from standard input and prints what was done with it, or why it is refused.
#![tactic(auto)]

mod print;

use planner::intake::take_in;
use planner::task_graph::TaskGraph;
use print::print_graph;
use std::io::Read;
use words::bytes::words_of_bytes;
use words::layout::MAX_WORDS;

fn main(rt: HostRuntime) -> anyhow::Result<()> {
    let mut input = Vec::new(rt.alloc());
    rt.stdin().read_to_end(&mut input)?;
    // Words are put into a lent list, and counted: job words are lent as slices.
    let mut words = [0u32; MAX_WORDS];
    let Some(count) = words_of_bytes(&input, &mut words) else {
        let bytes = input.len();
        println!(rt; "refused 5 31 {bytes}")?;
        return Ok(());
    };
    let mut graph = TaskGraph::new(rt.alloc())?;
    match take_in(&mut graph, &words[0..count]) {
        Ok(_) => print_graph(&rt, &graph)?,
        Err(why) => println!(rt; "refused {why}")?,
    }
    Ok(())
}
