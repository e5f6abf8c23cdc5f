use planner::records::Stage;
use planner::task_graph::TaskGraph;
use std::process::Abort;
use std::test::Fail;
use words::refusal::ReadRefusal;

// Times 4, 3, 5, 2 and links 1 to 2 of size 1, 1 to 3 of size 2, 2 to 4 of size 1 and 3 to 4 of size 1.
const JOB: [u32; 23] = [
    1, 4, 4, 4, 2, 3, 3, 5, 4, 2, 0, 2, 1, 0, 3, 2, 1, 4, 1, 0, 4, 1, 0,
];

// Fails unless the words were refused with this number and place, and the graph's own number and place below.
fn refused(
    rt: &impl Abort,
    answer: Result<u32, ReadRefusal>,
    at: (u32, u64),
    below: Option<(u32, u32)>,
) -> Result<(), Fail> {
    let Err(why) = answer else {
        return Err(Fail::new("the words were accepted"));
    };
    assert_eq!(rt; (why.number(), why.place()), at);
    assert_eq!(rt;
        why.below().map(|lower| (lower.number(), lower.place())),
        below
    );
    Ok(())
}

#[test]
fn words_are_read_and_written_back(rt: HostRuntime) -> Result<(), Fail> {
    let mut graph = TaskGraph::new(rt.alloc())?;
    assert!(rt; graph.read_words(&JOB).is_ok());
    assert_eq!(rt; graph.graph().tasks().len(), 4);
    assert_eq!(rt; graph.graph().links().len(), 4);
    let mut out = [7; 25];
    assert!(rt; graph.write_words(&mut out).is_ok());
    assert!(rt; out.starts_with(&JOB));
    assert_eq!(rt; (out[23], out[24]), (7, 7));
    Ok(())
}

#[test]
fn a_list_that_is_too_short_is_not_written(rt: HostRuntime) -> Result<(), Fail> {
    let mut graph = TaskGraph::new(rt.alloc())?;
    assert!(rt; graph.read_words(&JOB).is_ok());
    let mut out = [7; 22];
    let Err(why) = graph.write_words(&mut out) else {
        return Err(Fail::new("the words were written"));
    };
    assert_eq!(rt; (why.number(), why.place()), (18, 23));
    assert_eq!(rt; out, [7; 22]);
    Ok(())
}

// One word of the job changed: where, to what, and the refusal's number and place.
#[test]
fn each_fault_of_form_is_named(rt: HostRuntime) -> Result<(), Fail> {
    let cases = [
        (0, 2, 20, 0),
        (1, 257, 21, 1),
        (2, 1025, 21, 2),
        (1, 3, 22, 23),
        (4, 5, 23, 4),
        (16, 2, 23, 16),
        (4, 1, 24, 11),
        (16, 0, 24, 11),
        (10, 3, 24, 17),
    ];
    let mut graph = TaskGraph::new(rt.alloc())?;
    for (at, value, number, place) in cases {
        let mut words = JOB;
        assert!(rt; at < 23);
        words[at] = value;
        refused(&rt, graph.read_words(&words), (number, place), None)?;
    }
    refused(&rt, graph.read_words(&[]), (19, 0), None)?;
    refused(&rt, graph.read_words(&[1, 4]), (19, 2), None)?;
    assert_eq!(rt; graph.graph().tasks().len(), 0);
    Ok(())
}

// One word of the job changed: where, to what, the number, and the place below.
#[test]
fn each_fault_of_a_task_or_link_carries_the_graphs_own(rt: HostRuntime) -> Result<(), Fail> {
    let cases = [
        (3, 0, 2, 0),
        (9, 1_000_001, 2, 0),
        (11, 9, 4, 9),
        (11, 0, 4, 0),
        (11, 1, 5, 1),
        (12, 1_000_001, 6, 0),
        (14, 2, 7, 1),
    ];
    let mut graph = TaskGraph::new(rt.alloc())?;
    for (at, value, number, place) in cases {
        let mut words = JOB;
        assert!(rt; at < 23);
        words[at] = value;
        refused(
            &rt,
            graph.read_words(&words),
            (number, at as u64),
            Some((number, place)),
        )?;
    }
    assert_eq!(rt; graph.graph().tasks().len(), 0);
    Ok(())
}

#[test]
fn a_refused_reading_keeps_the_graph_and_its_stage(rt: HostRuntime) -> Result<(), Fail> {
    let mut graph = TaskGraph::new(rt.alloc())?;
    assert!(rt; graph.read_words(&JOB).is_ok());
    assert!(rt; graph.close().is_ok());
    refused(
        &rt,
        graph.read_words(&[1, 1, 0, 0, 0]),
        (2, 3),
        Some((2, 0)),
    )?;
    assert!(rt; graph.stage() == Stage::Closed);
    assert_eq!(rt; graph.blocks().len(), 4);
    assert!(rt; graph.read_words(&[1, 0, 0]).is_ok());
    assert!(rt; graph.stage() == Stage::Open);
    assert_eq!(rt; graph.blocks().len(), 0);
    let Err(why) = graph.close() else {
        return Err(Fail::new("an empty graph was closed"));
    };
    assert_eq!(rt; (why.number(), why.place()), (9, 0));
    Ok(())
}
