// Which tasks reach which, in a table of a row for each task: the place b of the row a is for the tasks a + 1 and b + 1.
ghost use Rattle.std.specs.Prelude.{◌≡◌, ℕ, ◌+◌, ◌-◌, ◌<◌, ◌≤◌, false, ◌&&◌, ◌||◌, length, replicate, slice_index_or};
ghost use Rattle.graph.specs.declared.limits.TheConstants.{MAX_TASKS};
ghost use Rattle.graph.specs.Net.{Joined};
ghost use Rattle.graph.specs.Walks.{through, least, some_number};
ghost use Rattle.graph.specs.Tables.{at, Shows};

use crate::limits::MAX_TASKS;
use crate::records::Link;

pub(crate) type Row = [bool; MAX_TASKS];

pub(crate) type Rows = [Row; MAX_TASKS];

// Links, and the table of what each of the tasks reaches over them. The rows are lent: they are large, and making the
// table would move them.
#[derive(Drop)]
pub(crate) struct ReachTable<'a> {
    pub(crate) links: &'a [Link],
    pub(crate) tasks: usize,
    pub(crate) rows: &'a Rows,
    ghost few: { tasks ≤ MAX_TASKS },
    ghost joined: { Joined tasks links.now },
    ghost shows: { Shows rows.now (through links.now tasks) },
}

// Rows that hold nothing.
pub(crate) fn no_rows() -> Rows
    ensures { result ≡ replicate MAX_TASKS (replicate MAX_TASKS false) }
{
    [[false; MAX_TASKS]; MAX_TASKS]
}

// Puts the links into rows that hold nothing.
fn direct(rows: &mut Rows, links: &[Link])
    requires empty { rows.old ≡ replicate MAX_TASKS (replicate MAX_TASKS false) }
    requires joined { Joined MAX_TASKS links.now }
    ensures { Shows rows.new (through links.now 0) }
{
    for link in links {
        rows[link.sender as usize - 1][link.receiver as usize - 1] = true;
    }
}

// Adds to a row what another holds. The other is read by index: what is written through `zip` over `iter_mut` is not
// known to a proof.
fn unite(row: &mut Row, other: &Row)
    ensures { (b : ℕ) → b < MAX_TASKS → slice_index_or row.new b false ≡ (slice_index_or row.old b false || slice_index_or other.now b false) }
{
    for (b, here) in row.iter_mut().enumerate() {
        *here |= other[b];
    }
}

// Lets each task of the rows that reaches one of these tasks reach all that this one reaches.
fn pass_through(rows: &mut [Row], via: usize)
    requires known { via < length rows.old }
    requires few { length rows.old ≤ MAX_TASKS }
    ensures long { length rows.new ≡ length rows.old }
    ensures passed { (a b : ℕ) → a < length rows.old → b < MAX_TASKS → at rows.new a b ≡ (at rows.old a b || (at rows.old a via && at rows.old via b)) }
{
    let onward = rows[via];
    for row in rows {
        if row[via] {
            unite(row, &onward);
        }
    }
}

// Puts into rows that hold nothing what each task reaches over one or more links, where only the first tasks stand in
// between. The rows of the others stay empty, and are not looked at.
pub(crate) fn closed(rows: &mut Rows, links: &[Link], tasks: usize)
    requires empty { rows.old ≡ replicate MAX_TASKS (replicate MAX_TASKS false) }
    requires few { tasks ≤ MAX_TASKS }
    requires joined { Joined tasks links.now }
    ensures { Shows rows.new (through links.now tasks) }
{
    direct(rows, links);
    for via in 0..tasks {
        pass_through(&mut rows[..tasks], via);
    }
}

impl<'a> ReachTable<'a> {
    pub(crate) fn new(links: &'a [Link], tasks: usize, rows: &'a Rows) -> ReachTable<'a>
        requires few { tasks ≤ MAX_TASKS }
        requires joined { Joined tasks links.now }
        requires shows { Shows rows.now (through links.now tasks) }
        ensures links { result.links.now ≡ links.now }
        ensures tasks { result.tasks ≡ tasks }
    {
        ReachTable { links, tasks, rows }
    }

    // Whether the task of a place reaches itself.
    fn on_circle(&self, place: usize) -> bool
        requires { place < MAX_TASKS }
        ensures { result ≡ at self.now.rows.now place place }
    {
        self.rows[place][place]
    }

    // The least task that reaches itself.
    pub(crate) fn least_on_circle(&self) -> Option<u32>
        ensures { result ≡ some_number (least (λ t. through self.now.links.now self.now.tasks t t) self.now.tasks) }
    {
        (0..self.tasks)
            .find(|place| self.on_circle(*place))
            .map(|place| place as u32 + 1)
    }
}
