use crate::support::*;
use planner::task_graph::TaskGraph;
use std::test::Fail;

#[test]
fn a_time_is_1_to_a_million(rt: HostRuntime) -> Result<(), Fail> {
    let mut graph = TaskGraph::new(rt.alloc())?;
    assert_eq!(rt; graph.add_task(1)?, 1);
    assert_eq!(rt; graph.add_task(1_000_000)?, 2);
    for time in [0, 1_000_001, 4_294_967_295] {
        refused(&rt, graph.add_task(time), 2, 0)?;
    }
    assert_eq!(rt; graph.graph().tasks().len(), 2);
    Ok(())
}

#[test]
fn a_task_keeps_its_time_and_has_no_link(rt: HostRuntime) -> Result<(), Fail> {
    let mut graph = TaskGraph::new(rt.alloc())?;
    for time in [4, 3, 5] {
        graph.add_task(time)?;
    }
    let tasks = graph.graph().tasks();
    assert!(rt; tasks.len() == 3);
    for (task, time) in tasks.iter().zip([4, 3, 5]) {
        assert_eq!(rt; (task.time, task.newest), (time, 0));
    }
    Ok(())
}

#[test]
fn a_full_graph_takes_no_task(rt: HostRuntime) -> Result<(), Fail> {
    let mut graph = with_tasks(&rt, rt.alloc(), 256)?;
    refused(&rt, graph.add_task(1), 3, 0)?;
    refused(&rt, graph.add_task(0), 2, 0)?;
    refused(&rt, graph.add_task(1_000_001), 2, 0)?;
    assert_eq!(rt; graph.graph().tasks().len(), 256);
    Ok(())
}
