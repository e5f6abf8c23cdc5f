// The edition of job words, how many there are, and the length of tables over their links and pairs of tasks.
ghost use Rattle.std.specs.Prelude.{◌≡◌, ◌≤◌};
ghost use Rattle.words.specs.Words.{word_count};

use graph::limits::{MAX_LINKS, MAX_TASKS};

pub const EDITION: u32 = 1;

// As many words as the largest job has. A constant's value cannot call `word_count` yet.
pub const MAX_WORDS: usize = 3 + 2 * MAX_TASKS + 3 * MAX_LINKS;

// A table by link number has an entry 0, which is not used.
pub(crate) const LINK_ENTRIES: usize = MAX_LINKS + 1;

// A table by pairs of tasks has a row for each sender.
pub(crate) const PAIR_ENTRIES: usize = MAX_TASKS * MAX_TASKS;

// How many words a job has: 3, two for each task, and three for each link.
pub(crate) fn word_count(tasks: usize, links: usize) -> usize
    requires few_tasks { tasks ≤ 256 }
    requires few_links { links ≤ 1024 }
    ensures value { result ≡ word_count tasks links }
    ensures most { result ≤ MAX_WORDS }
{
    3 + 2 * tasks + 3 * links
}
