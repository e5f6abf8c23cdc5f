// The lists of links in job words, and their times, tested before the graph is touched.
ghost use Rattle.std.specs.Prelude.{◌≡◌, ℕ, Bool, [], ◌∷◌};
ghost use Rattle.graph.specs.Calls.{first_of};
ghost use Rattle.words.specs.declared.refusal.ReadRefusal.{ReadRefusal};
ghost use Rattle.words.specs.Reading.{at_first, list_rows, verdict};
ghost use Rattle.words.specs.Lists.{Takes, Tells};

use crate::job::JobWords;
use crate::job::calls::{newest_place, time_place};
use crate::names::count_names;
use crate::refusal::ReadRefusal;
use graph::graph::calls::time_in_range;
use graph::records::Refusal;

// Refuses the first of the numbers 1 to `count` at which a test holds.
fn refuse_first<F: Fn(usize) -> bool, R: Fn(usize) -> ReadRefusal>(
    count: usize,
    holds: F,
    refusal: R,
) -> Result<(), ReadRefusal>
    requires tests { Takes (F.pre holds) count }
    requires refuses { Takes (R.pre refusal) count }
    ensures { (test : ℕ → Bool) (why : ℕ → ReadRefusal) → Tells (F.post holds) count test → Tells (R.post refusal) count why → result ≡ verdict (first_of (at_first test count why ∷ [])) }
{
    for number in 1..=count {
        if holds(number) {
            return Err(refusal(number));
        }
    }
    Ok(())
}

// Every pointer to an older link, every link named once, every time in range.
pub(crate) fn check_lists(job: &JobWords) -> Result<(), ReadRefusal>
    ensures { result ≡ verdict (first_of (list_rows job.now.words.now)) }
{
    let tasks = job.task_count();
    let links = job.link_count();
    refuse_first(
        tasks,
        |t| job.newest(t) > links,
        |t| ReadRefusal::WrongPointer(newest_place(t) as u32),
    )?;
    refuse_first(
        links,
        |l| job.next(l) >= l,
        |l| ReadRefusal::WrongPointer(job.next_place(l) as u32),
    )?;
    let counts = count_names(job);
    refuse_first(
        links,
        |l| counts[l] != 1,
        |l| ReadRefusal::NotNamedOnce(job.receiver_place(l) as u32),
    )?;
    refuse_first(
        tasks,
        |t| !time_in_range(job.time(t)),
        |t| ReadRefusal::Refused(time_place(t) as u32, Refusal::TimeOutOfRange),
    )
}
