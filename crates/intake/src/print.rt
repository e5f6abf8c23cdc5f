// What is printed: lines of words and numbers with a space between each two.
use graph::records::Link;
use planner::task_graph::TaskGraph;
use std::io;
use words::layout::MAX_WORDS;

// The numbers of a list of links, from its newest on; it has no more links than there are. 0 ends it, as in job words.
fn print_list(rt: &impl Print, links: &[Link], newest: u32) -> io::Result<()> {
    let mut number = newest;
    for _ in links {
        let Some(at) = number.checked_sub(1) else {
            break;
        };
        let Some(link) = links.get(at as usize) else {
            break;
        };
        print!(rt; " {number}")?;
        number = link.next;
    }
    Ok(())
}

// Each task with its time and its outgoing links, the newest first.
fn print_tasks(rt: &impl Print, graph: &TaskGraph) -> io::Result<()> {
    let links = graph.graph().links();
    for (number, task) in (1u64..).zip(graph.graph().tasks()) {
        let time = task.time;
        print!(rt; "task {number} time {time} links")?;
        print_list(rt, links, task.newest)?;
        println!(rt; "")?;
    }
    Ok(())
}

// The words written back. They are put into a lent list, and counted: job words are lent as slices.
fn print_words(rt: &impl Print, graph: &TaskGraph) -> io::Result<()> {
    let mut words = [0u32; MAX_WORDS];
    if let Ok(count) = graph.write_words(&mut words) {
        print!(rt; "words")?;
        for word in words.iter().take(count as usize) {
            print!(rt; " {word}")?;
        }
        println!(rt; "")?;
    }
    Ok(())
}

pub fn print_graph(rt: &impl Print, graph: &TaskGraph) -> io::Result<()> {
    let tasks = graph.graph().tasks().len();
    let links = graph.graph().links().len();
    println!(rt; "tasks {tasks} links {links}")?;
    println!(rt; "closed {tasks}")?;
    print_tasks(rt, graph)?;
    print_words(rt, graph)
}
