// Times, and their sums, which may pass 64 bits.
ghost use Rattle.std.specs.Prelude.{◌≡◌, ◌+◌, ◌==◌, nat_lt, slice_index};
ghost use Rattle.schedule.specs.Problems.{length_of};
ghost use Rattle.checking.specs.Checking.{first_row, breaks};

use crate::first::first_row;
use chains::limits::NUMBERS;
use chains::table::entry;
use schedule::rows::Row;

// Whether a number is below the sum of two others.
pub(crate) fn is_below_sum(number: u64, x: u64, y: u64) -> bool
    ensures { result ≡ nat_lt number (x + y) }
{
    x.checked_add(y).is_none_or(|sum| number < sum)
}

// Whether a number is the sum of two others.
fn is_sum(number: u64, x: u64, y: u64) -> bool
    ensures { result ≡ (number == x + y) }
{
    x.checked_add(y) == Some(number)
}

// The first row whose finish is not its start and the block time.
pub(crate) fn first_broken(times: &[u64; NUMBERS], rows: &[Row]) -> Option<u64>
    ensures { result ≡ first_row (λ above r. breaks (λ b. slice_index times.now b) r) rows.now }
{
    first_row(rows, |_, row| {
        !is_sum(row.finish, row.start, entry(times, row.block as usize))
    })
}

// The length of a schedule: the greatest finish.
pub(crate) fn length_of(rows: &[Row]) -> u64
    ensures { result ≡ length_of rows.now }
{
    rows.iter().map(|row| row.finish).max().unwrap_or(0)
}
