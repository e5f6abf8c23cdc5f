// What a graph is made of.
ghost use Rattle.std.specs.Prelude.{◌≤◌, length, vec_len, vec_capacity};
ghost use Rattle.graph.specs.declared.limits.TheConstants.{MAX_TASKS, MAX_LINKS};
ghost use Rattle.graph.specs.Net.{Timed, Joined, Unlooped, Sized, Single, Threaded, Headed};

use crate::records::{Link, Task};

pub mod calls;

// Tasks and links in the order of arrival, numbered from 1, with memory for all that there may ever be.
#[derive(Drop)]
pub struct Graph {
    tasks: Vec<Task>,
    links: Vec<Link>,
    ghost task_room: { MAX_TASKS ≤ vec_capacity tasks },
    ghost link_room: { MAX_LINKS ≤ vec_capacity links },
    ghost task_limit: { vec_len tasks ≤ MAX_TASKS },
    ghost link_limit: { vec_len links ≤ MAX_LINKS },
    ghost timed: { Timed tasks.items },
    ghost joined: { Joined (length tasks.items) links.items },
    ghost unlooped: { Unlooped links.items },
    ghost sized: { Sized links.items },
    ghost single: { Single links.items },
    ghost threaded: { Threaded links.items },
    ghost headed: { Headed tasks.items links.items },
}
