// Rows on processors that are not there, and rows on one processor at one time.
ghost use Rattle.std.specs.Prelude.{◌≡◌};
ghost use Rattle.checking.specs.Checking.{first_row, overlap, overlaps, strays};

use crate::first::first_row;
use machine::Machine;
use schedule::rows::Row;

// The first row on a processor that is not there.
pub(crate) fn first_stray<M: Machine>(machine: &M, rows: &[Row]) -> Option<u64>
    ensures { result ≡ first_row (λ above r. strays (M.meaning machine.now).processors r) rows.now }
{
    let processors = u64::from(machine.processors());
    first_row(rows, |_, row| row.processor >= processors)
}

// Whether two rows are on one processor at one time.
fn overlap(x: &Row, y: &Row) -> bool
    ensures { result ≡ overlap x.now y.now }
{
    x.processor == y.processor && x.start < y.finish && y.start < x.finish
}

// Whether one of these rows overlaps a row.
fn overlaps(above: &[Row], row: &Row) -> bool
    ensures { result ≡ overlaps above.now row.now }
{
    above.iter().any(|y| overlap(y, row))
}

// The first row that a row above overlaps.
pub(crate) fn first_overlapping(rows: &[Row]) -> Option<u64>
    ensures { result ≡ first_row overlaps rows.now }
{
    first_row(rows, |above, row| overlaps(above, row))
}
