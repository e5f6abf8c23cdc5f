// Testing whether the links of job words can be linked, and adding tasks and links to a graph.
ghost use Rattle.std.specs.Prelude.{◌≡◌, ◌+◌, ◌-◌, ◌*◌, ◌<◌, ◌≤◌, None, Some, MatchResult, slice_index_or, slice_set};
ghost use Rattle.graph.specs.Calls.{first_of};
ghost use Rattle.graph.specs.Net.{empty};
ghost use Rattle.graph.specs.Of.{net_of};
ghost use Rattle.words.specs.Reading.{task_count, link_count, list_rows, verdict, with_tasks, with_links, graph_read, link_refusal, fault_place, first_refused};
ghost use Rattle.words.specs.Lists.{Pairs, entries};

use crate::checks::check_lists;
use crate::job::JobWords;
use crate::layout::PAIR_ENTRIES;
use crate::names::senders_of;
use crate::refusal::ReadRefusal;
use crate::tested::TestedJob;
use graph::graph::Graph;
use graph::limits::{MAX_SIZE, MAX_TASKS};
use graph::records::Refusal;

// The place of a pair of tasks in a table with a row for each sender. Rows in rows would be two lists to read through
// where the proofs have one.
fn pair_place(sender: u32, receiver: u32) -> usize
    requires sender_some { 1 ≤ sender }
    requires sender_known { sender ≤ 256 }
    requires receiver_some { 1 ≤ receiver }
    requires receiver_known { receiver ≤ 256 }
    ensures value { result ≡ (sender - 1) * 256 + (receiver - 1) }
    ensures in_table { result < 65536 }
{
    (sender as usize - 1) * MAX_TASKS + (receiver as usize - 1)
}

// The link of each pair of tasks that is linked already, in 128 KiB. A place of 0 is of a pair that is not linked: a
// table of options takes twice the room.
#[derive(Drop)]
struct OlderLinks {
    numbers: [u16; PAIR_ENTRIES],
}

impl OlderLinks {
    // The link from one task to another, if there is one.
    fn link(&self, sender: u32, receiver: u32) -> Option<u16>
        requires sender_some { 1 ≤ sender }
        requires sender_known { sender ≤ 256 }
        requires receiver_some { 1 ≤ receiver }
        requires receiver_known { receiver ≤ 256 }
        ensures { result ≡ slice_index_or (entries self.now.numbers) ((sender - 1) * 256 + (receiver - 1)) None }
    {
        match self.numbers[pair_place(sender, receiver)] {
            0 => None,
            number => Some(number),
        }
    }

    // Puts a link from one task to another.
    fn put(&mut self, sender: u32, receiver: u32, link: u16)
        requires sender_some { 1 ≤ sender }
        requires sender_known { sender ≤ 256 }
        requires receiver_some { 1 ≤ receiver }
        requires receiver_known { receiver ≤ 256 }
        requires link_some { 1 ≤ link }
        ensures { entries self.new.numbers ≡ slice_set (entries self.old.numbers) ((sender - 1) * 256 + (receiver - 1)) (Some link) }
    {
        self.numbers[pair_place(sender, receiver)] = link;
    }
}

impl<'a> TestedJob<'a> {
    // Tests the lists of links and the times, and finds the sender of each link.
    pub(crate) fn read(job: JobWords<'a>) -> Result<TestedJob<'a>, ReadRefusal>
        ensures { MatchResult result (λ tested. (tested.job.words.now ≡ job.entry.words.now) × (first_of (list_rows job.entry.words.now) ≡ None)) (λ why. first_of (list_rows job.entry.words.now) ≡ Some why) }
    {
        check_lists(&job)?;
        let senders = senders_of(&job);
        Ok(TestedJob { job, senders })
    }

    // Whether linking a link after those before it is allowed; `older` has the link of each pair that is linked already.
    fn allowed(&self, older: &OlderLinks, link: usize) -> Result<(), Refusal>
        requires some { 1 ≤ link }
        requires there { link ≤ link_count self.now.job.words.now }
        requires older { Pairs (entries older.now.numbers) (with_links self.now.job.words.now (link - 1)).links }
        ensures { result ≡ verdict (link_refusal self.now.job.words.now link) }
    {
        let sender = self.senders[link];
        let receiver = self.job.receiver(link);
        // No `contains`: the bounds in its answer were tried, and arithmetic did not find them in the cases below.
        if receiver == 0 || receiver as usize > self.job.task_count() {
            return Err(Refusal::NoSuchTask(receiver));
        }
        if sender == receiver {
            return Err(Refusal::SelfLink(sender));
        }
        if self.job.size(link) > MAX_SIZE {
            return Err(Refusal::SizeTooLarge);
        }
        match older.link(sender, receiver) {
            Some(found) => Err(Refusal::AlreadyLinked(u32::from(found))),
            None => Ok(()),
        }
    }

    // The word at fault where linking is refused: the size, or else the receiver.
    fn fault_place(&self, link: usize, why: Refusal) -> u32
        requires { link ≤ 1024 }
        ensures { result ≡ fault_place self.now.job.words.now link why }
    {
        match why {
            Refusal::SizeTooLarge => self.job.size_place(link) as u32,
            _ => self.job.receiver_place(link) as u32,
        }
    }

    // Link by link, whether linking it after those before it is allowed. No `map_err` with `?`: what its closure answers
    // could not be cited at the early return.
    pub(crate) fn check_links(&self) -> Result<(), ReadRefusal>
        ensures { result ≡ verdict (first_refused self.now.job.words.now (link_count self.now.job.words.now)) }
    {
        // Without links nothing is put into the table, and it need not be cleared.
        if self.job.link_count() == 0 {
            return Ok(());
        }
        let mut older = OlderLinks {
            numbers: [0; PAIR_ENTRIES],
        };
        for link in 1..=self.job.link_count() {
            if let Err(why) = self.allowed(&older, link) {
                return Err(ReadRefusal::Refused(self.fault_place(link, why), why));
            }
            older.put(self.senders[link], self.job.receiver(link), link as u16);
        }
        Ok(())
    }

    // Adds the tasks to an empty graph.
    pub(crate) fn add_tasks(&self, graph: &mut Graph)
        requires { net_of graph.old ≡ empty }
        ensures { net_of graph.new ≡ with_tasks self.now.job.words.now (task_count self.now.job.words.now) }
    {
        for task in 1..=self.job.task_count() {
            let _ = graph.add_task(self.job.time(task));
        }
    }

    // Links the links, in number order.
    pub(crate) fn add_links(&self, graph: &mut Graph)
        requires allowed { first_refused self.now.job.words.now (link_count self.now.job.words.now) ≡ None }
        requires tasks { net_of graph.old ≡ with_links self.now.job.words.now 0 }
        ensures { net_of graph.new ≡ graph_read self.now.job.words.now }
    {
        for link in 1..=self.job.link_count() {
            let _ = graph.link(
                self.senders[link],
                self.job.receiver(link),
                self.job.size(link),
            );
        }
    }
}
