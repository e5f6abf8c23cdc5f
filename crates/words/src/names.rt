// How often each link is named, and in whose list it stands. The tables go by link number.
ghost use Rattle.std.specs.Prelude.{◌≡◌, ℕ, ◌+◌, ◌<◌, ◌≤◌, length, nat_eq, slice_index};
ghost use Rattle.graph.specs.Tables.{count_below};
ghost use Rattle.words.specs.Reading.{times_named, naming_task};
ghost use Rattle.words.specs.Lists.{Named, Sends, Takes, Tells};

use crate::job::JobWords;
use crate::layout::LINK_ENTRIES;

// Counts which links the numbers 1 to `count` name.
fn count_named<F: Fn(usize) -> usize>(counts: &mut [u32; LINK_ENTRIES], count: usize, named_by: F)
    requires few { count ≤ 1024 }
    requires low { (l : ℕ) → l < 1025 → slice_index counts.old l ≤ 1024 }
    requires takes { Takes (F.pre named_by) count }
    ensures { (names : ℕ → ℕ) → Tells (F.post named_by) count names → (l : ℕ) → l < 1025 → slice_index counts.new l ≡ slice_index counts.old l + count_below (λ i. nat_eq (names (i + 1)) l) count }
{
    for number in 1..=count {
        let link = named_by(number);
        if link < counts.len() {
            counts[link] += 1;
        }
    }
}

// How often each link is named.
pub(crate) fn count_names(job: &JobWords) -> [u32; LINK_ENTRIES]
    ensures { (l : ℕ) → l < 1025 → slice_index result l ≡ times_named job.now.words.now l }
{
    let mut counts = [0; LINK_ENTRIES];
    count_named(&mut counts, job.task_count(), |t| job.newest(t));
    count_named(&mut counts, job.link_count(), |l| job.next(l));
    counts
}

// The task that names each link as its newest, or 0. An entry is read only after a sender was put there, so `Option`s
// would only have to be taken out again.
fn name_by_tasks(job: &JobWords) -> [u32; LINK_ENTRIES]
    requires { Named job.now.words.now }
    ensures long { length result ≡ 1025 }
    ensures names { (l : ℕ) → l < 1025 → slice_index result l ≡ naming_task job.now.words.now l }
{
    let mut senders = [0; LINK_ENTRIES];
    for task in 1..=job.task_count() {
        senders[job.newest(task)] = task as u32;
    }
    senders
}

// The sender of each link: the task in whose list it stands. From the last link to the first, each hands its sender
// on to the link that it names.
pub(crate) fn senders_of(job: &JobWords) -> [u32; LINK_ENTRIES]
    requires { Named job.now.words.now }
    ensures { Sends job.now.words.now result }
{
    let mut senders = name_by_tasks(job);
    for link in (1..=job.link_count()).rev() {
        senders[job.next(link)] = senders[link];
    }
    senders
}
