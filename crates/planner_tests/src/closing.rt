use crate::support::*;
use planner::records::Stage;
use planner::task_graph::TaskGraph;
use std::test::Fail;

#[test]
fn a_graph_without_a_task_is_not_closed(rt: HostRuntime) -> Result<(), Fail> {
    let mut graph = TaskGraph::new(rt.alloc())?;
    refused(&rt, graph.close(), 9, 0)?;
    assert_eq!(rt; graph.stage(), Stage::Open);
    Ok(())
}

#[test]
fn two_tasks_that_send_to_each_other_are_a_circle(rt: HostRuntime) -> Result<(), Fail> {
    let mut graph = with_links(&rt, rt.alloc(), 2, &[(1, 2), (2, 1)])?;
    refused(&rt, graph.close(), 10, 1)?;
    assert_eq!(rt; graph.stage(), Stage::Open);
    assert_eq!(rt; graph.blocks().len(), 0);
    assert_eq!(rt; graph.add_task(1)?, 3);
    Ok(())
}

// Three links each, and the least task on a circle; one that only leads into a circle is not on it.
const CIRCLES: [([(u32, u32); 3], u32); 5] = [
    ([(3, 1), (1, 2), (2, 1)], 1),
    ([(1, 2), (2, 3), (3, 2)], 2),
    ([(2, 1), (2, 3), (3, 2)], 2),
    ([(1, 2), (2, 3), (3, 1)], 1),
    ([(1, 2), (3, 4), (4, 3)], 3),
];

#[test]
fn the_least_task_on_a_circle_is_named(rt: HostRuntime) -> Result<(), Fail> {
    for (links, on) in CIRCLES {
        let mut graph = with_links(&rt, rt.alloc(), 4, &links)?;
        refused(&rt, graph.close(), 10, on)?;
    }
    Ok(())
}

#[test]
fn every_task_becomes_a_block_of_its_own(rt: HostRuntime) -> Result<(), Fail> {
    let mut graph = with_links(&rt, rt.alloc(), 4, &[(1, 2), (1, 3), (2, 4), (3, 4)])?;
    assert_eq!(rt; graph.blocks().len(), 0);
    assert_eq!(rt; graph.close()?, 4);
    assert_eq!(rt; graph.stage(), Stage::Closed);
    assert_eq!(rt; graph.blocks(), [1, 2, 3, 4].as_slice());
    Ok(())
}

#[test]
fn the_largest_graph_is_closed(rt: HostRuntime) -> Result<(), Fail> {
    let mut graph = with_tasks(&rt, rt.alloc(), 256)?;
    assert_eq!(rt; graph.close()?, 256);
    let blocks = graph.blocks();
    assert!(rt; blocks.len() == 256);
    assert_eq!(rt; (blocks[0], blocks[255]), (1, 256));
    Ok(())
}

#[test]
fn a_closed_graph_takes_no_call(rt: HostRuntime) -> Result<(), Fail> {
    let mut graph = with_links(&rt, rt.alloc(), 2, &[(1, 2)])?;
    assert_eq!(rt; graph.close()?, 2);
    for time in [1, 0] {
        refused(&rt, graph.add_task(time), 1, 0)?;
    }
    for (from, to) in [(2, 1), (1, 2), (9, 9)] {
        refused(&rt, graph.link(from, to, 1), 1, 0)?;
    }
    refused(&rt, graph.close(), 1, 0)?;
    assert_eq!(rt;
        (graph.graph().tasks().len(), graph.graph().links().len()),
        (2, 1)
    );
    Ok(())
}
