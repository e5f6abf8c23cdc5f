// Reading the form of job words, and where the words of a task and of a link stand.
ghost use Rattle.std.specs.Prelude.{◌≡◌, ◌<◌, ◌≤◌, None, Some, MatchResult};
ghost use Rattle.graph.specs.Calls.{first_of};
ghost use Rattle.words.specs.Reading.{word, task_count, link_count, time_place, newest_place, receiver_place, size_place, next_place, form_rows};

use crate::job::JobWords;
use crate::layout::{EDITION, word_count};
use crate::refusal::ReadRefusal;
use graph::limits::{MAX_LINKS, MAX_TASKS};

// The place of a task's time.
pub(crate) fn time_place(task: usize) -> usize
    requires { task ≤ 256 }
    ensures { result ≡ time_place task }
{
    2 * task + 1
}

// The place of the number of a task's newest link.
pub(crate) fn newest_place(task: usize) -> usize
    requires { task ≤ 256 }
    ensures { result ≡ newest_place task }
{
    2 * task + 2
}

impl<'a> JobWords<'a> {
    // Enough words, the right edition, counts within the limits, and as many words as these ask for.
    pub(crate) fn read(words: &'a [u32]) -> Result<JobWords<'a>, ReadRefusal>
        ensures { MatchResult result (λ job. (job.words.now ≡ words.now) × (first_of (form_rows words.now) ≡ None)) (λ why. first_of (form_rows words.now) ≡ Some why) }
    {
        let &[edition, tasks, links, ..] = words else {
            return Err(ReadRefusal::TooFewWords(words.len()));
        };
        if edition != EDITION {
            return Err(ReadRefusal::WrongEdition);
        }
        let tasks = tasks as usize;
        if tasks > MAX_TASKS {
            return Err(ReadRefusal::CountTooLarge(1));
        }
        let links = links as usize;
        if links > MAX_LINKS {
            return Err(ReadRefusal::CountTooLarge(2));
        }
        if words.len() != word_count(tasks, links) {
            return Err(ReadRefusal::WrongLength(words.len()));
        }
        Ok(JobWords { words })
    }

    pub(crate) fn task_count(&self) -> usize
        ensures value { result ≡ task_count self.now.words.now }
        ensures few { result ≤ 256 }
    {
        self.words[1] as usize
    }

    pub(crate) fn link_count(&self) -> usize
        ensures value { result ≡ link_count self.now.words.now }
        ensures few { result ≤ 1024 }
    {
        self.words[2] as usize
    }

    // A link's number is at most 1,024 here and below, so that its place is within the words of the largest job; a struct of a
    // number alone would carry that and nothing else.
    pub(crate) fn receiver_place(&self, link: usize) -> usize
        requires { link ≤ 1024 }
        ensures value { result ≡ receiver_place self.now.words.now link }
        ensures near { result ≤ 3584 }
    {
        2 * self.task_count() + 3 * link
    }

    pub(crate) fn size_place(&self, link: usize) -> usize
        requires { link ≤ 1024 }
        ensures { result ≡ size_place self.now.words.now link }
    {
        self.receiver_place(link) + 1
    }

    pub(crate) fn next_place(&self, link: usize) -> usize
        requires { link ≤ 1024 }
        ensures value { result ≡ next_place self.now.words.now link }
        ensures near { result ≤ 3586 }
    {
        self.receiver_place(link) + 2
    }

    pub(crate) fn time(&self, task: usize) -> u32
        requires { task ≤ task_count self.now.words.now }
        ensures { result ≡ word self.now.words.now (time_place task) }
    {
        self.words[time_place(task)]
    }

    // The number of a task's newest link, or 0, the format's word for none.
    pub(crate) fn newest(&self, task: usize) -> usize
        requires { task ≤ task_count self.now.words.now }
        ensures { result ≡ word self.now.words.now (newest_place task) }
    {
        self.words[newest_place(task)] as usize
    }

    pub(crate) fn receiver(&self, link: usize) -> u32
        requires { link ≤ link_count self.now.words.now }
        ensures { result ≡ word self.now.words.now (receiver_place self.now.words.now link) }
    {
        self.words[self.receiver_place(link)]
    }

    pub(crate) fn size(&self, link: usize) -> u32
        requires { link ≤ link_count self.now.words.now }
        ensures { result ≡ word self.now.words.now (size_place self.now.words.now link) }
    {
        self.words[self.size_place(link)]
    }

    // The number of the next older link of the same sender, or 0, the format's word for none.
    pub(crate) fn next(&self, link: usize) -> usize
        requires { link ≤ link_count self.now.words.now }
        ensures { result ≡ word self.now.words.now (next_place self.now.words.now link) }
    {
        self.words[self.next_place(link)] as usize
    }
}
