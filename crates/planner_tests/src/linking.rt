use crate::support::*;
use graph::records::Link;
use planner::task_graph::TaskGraph;
use std::alloc::Global;
use std::process::Abort;
use std::test::Fail;

// Each call on a graph of three tasks with a link from 1 to 2, and the number and place of its refusal.
const REFUSED: [(u32, u32, u32, u32, u32); 12] = [
    (0, 1, 1, 4, 0),
    (1, 0, 1, 4, 0),
    (4, 9, 1, 4, 4),
    (9, 4, 1, 4, 9),
    (1, 4, 1, 4, 4),
    (4, 4, 1, 4, 4),
    (2, 2, 1, 5, 2),
    (3, 3, 1_000_001, 5, 3),
    (1, 3, 1_000_001, 6, 0),
    (1, 2, 1_000_001, 6, 0),
    (1, 2, 1_000_000, 7, 1),
    (1, 2, 0, 7, 1),
];

#[test]
fn the_first_refusal_that_applies_is_answered(rt: HostRuntime) -> Result<(), Fail> {
    let mut graph = with_links(&rt, rt.alloc(), 3, &[(1, 2)])?;
    for (from, to, size, number, place) in REFUSED {
        refused(&rt, graph.link(from, to, size), number, place)?;
    }
    assert_eq!(rt; graph.graph().links().len(), 1);
    Ok(())
}

#[test]
fn sizes_reach_from_0_to_a_million_and_directions_are_two_pairs(
    rt: HostRuntime,
) -> Result<(), Fail> {
    let mut graph = with_links(&rt, rt.alloc(), 3, &[(1, 2)])?;
    assert_eq!(rt; graph.link(1, 3, 0)?, 2);
    assert_eq!(rt; graph.link(3, 1, 1_000_000)?, 3);
    assert_eq!(rt; graph.link(2, 1, 1)?, 4);
    refused(&rt, graph.link(2, 1, 1), 7, 4)
}

// Fails unless the graph's link at this place is the one given as sender, receiver, size and next.
fn has_link(rt: &impl Abort, graph: &TaskGraph, at: usize, link: (u32, u32, u32, u32)) {
    let links: &[Link] = graph.graph().links();
    assert!(rt; at < links.len());
    let found = links[at];
    assert_eq!(rt;
        (found.sender, found.receiver, found.size, found.next),
        link
    );
}

#[test]
fn each_link_names_the_next_older_one_of_its_sender(rt: HostRuntime) -> Result<(), Fail> {
    let mut graph = with_tasks(&rt, rt.alloc(), 4)?;
    for (from, to, size) in [(1, 2, 1), (1, 3, 2), (2, 4, 1), (3, 4, 1)] {
        graph.link(from, to, size)?;
    }
    for (at, link) in [
        (0, (1, 2, 1, 0)),
        (1, (1, 3, 2, 1)),
        (2, (2, 4, 1, 0)),
        (3, (3, 4, 1, 0)),
    ] {
        has_link(&rt, &graph, at, link);
    }
    let tasks = graph.graph().tasks();
    assert!(rt; tasks.len() == 4);
    for (task, newest) in tasks.iter().zip([2, 3, 4, 0]) {
        assert_eq!(rt; task.newest, newest);
    }
    Ok(())
}

// A graph of 137 tasks and 1,024 links: each of the first 8 tasks sends to the 128 after these, and none to the last.
fn full(rt: &impl Abort, heap: Global) -> Result<TaskGraph, Fail> {
    let mut graph = with_tasks(rt, heap, 137)?;
    for k in 0..1024 {
        assert_eq!(rt; graph.link(k / 128 + 1, k % 128 + 9, 1)?, k + 1);
    }
    Ok(graph)
}

#[test]
fn a_full_graph_takes_no_link(rt: HostRuntime) -> Result<(), Fail> {
    let mut graph = full(&rt, rt.alloc())?;
    refused(&rt, graph.link(1, 137, 1), 8, 0)?;
    refused(&rt, graph.link(1, 9, 1), 7, 1)?;
    refused(&rt, graph.link(2, 9, 1), 7, 129)?;
    refused(&rt, graph.link(8, 136, 1), 7, 1024)?;
    refused(&rt, graph.link(1, 137, 1_000_001), 6, 0)?;
    assert_eq!(rt; graph.graph().links().len(), 1024);
    Ok(())
}
