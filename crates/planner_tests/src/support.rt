// What the tests share.
use graph::records::Refusal;
use planner::task_graph::TaskGraph;
use std::alloc::Global;
use std::process::Abort;
use std::test::Fail;

// Fails unless the call was refused with this number and place.
pub fn refused(
    rt: &impl Abort,
    answer: Result<u32, Refusal>,
    number: u32,
    place: u32,
) -> Result<(), Fail> {
    let Err(why) = answer else {
        return Err(Fail::new("the call was accepted"));
    };
    assert_eq!(rt; (why.number(), why.place()), (number, place));
    Ok(())
}

// A graph of n tasks that take 1 each.
pub fn with_tasks(rt: &impl Abort, heap: Global, n: u32) -> Result<TaskGraph, Fail> {
    let mut graph = TaskGraph::new(heap)?;
    for task in 1..=n {
        assert_eq!(rt; graph.add_task(1)?, task);
    }
    Ok(graph)
}

// A graph of n tasks with these links, each of size 1.
pub fn with_links(
    rt: &impl Abort,
    heap: Global,
    n: u32,
    links: &[(u32, u32)],
) -> Result<TaskGraph, Fail> {
    let mut graph = with_tasks(rt, heap, n)?;
    for (from, to) in links {
        graph.link(*from, *to, 1)?;
    }
    Ok(graph)
}
