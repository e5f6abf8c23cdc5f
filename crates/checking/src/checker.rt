// Checking rows.
ghost use Rattle.std.specs.Prelude.{◌≡◌};
ghost use Rattle.checking.specs.Accepting.{Judges, AcceptsExactly};
ghost use Rattle.checking.specs.Checking.{row_refusal, check_refusal, check_answer, unless};
ghost use Rattle.checking.specs.Jobs.{seen};

use crate::arriving::first_lacking;
use crate::job::Job;
use crate::naming::first_misnamed;
use crate::overlapping::{first_overlapping, first_stray};
use crate::refusal::CheckRefusal;
use crate::timing::{first_broken, length_of};
use machine::Machine;
use schedule::rows::Row;

// Passes where nothing is refused.
fn unless(refused: Option<CheckRefusal>) -> Result<(), CheckRefusal>
    ensures { result ≡ unless refused tt }
{
    refused.map_or(Ok(()), Err)
}

// Whether no row is refused, each test over all rows before the next.
fn check_each<M: Machine>(job: &Job, machine: &M, rows: &[Row]) -> Result<(), CheckRefusal>
    ensures { result ≡ unless (row_refusal (M.meaning machine.now) (seen job.now) rows.now) tt }
{
    unless(first_misnamed(job.blocks, rows).map(CheckRefusal::Block))?;
    unless(first_stray(machine, rows).map(CheckRefusal::Processor))?;
    unless(first_broken(job.times, rows).map(CheckRefusal::Finish))?;
    unless(first_overlapping(rows).map(CheckRefusal::Overlap))?;
    unless(first_lacking(machine, job.messages, rows).map(CheckRefusal::Arrival))
}

// Whether the rows are as many as the blocks, and then whether no row is refused.
fn check_all<M: Machine>(job: &Job, machine: &M, rows: &[Row]) -> Result<(), CheckRefusal>
    ensures { result ≡ unless (check_refusal (M.meaning machine.now) (seen job.now) rows.now) tt }
{
    if rows.len() != job.blocks.len() {
        return Err(CheckRefusal::RowCount(rows.len() as u64));
    }
    check_each(job, machine, rows)
}

// The length of the rows, or why they are refused.
fn answer<M: Machine>(job: &Job, machine: &M, rows: &[Row]) -> Result<u64, CheckRefusal>
    ensures { result ≡ check_answer (M.meaning machine.now) (seen job.now) rows.now }
{
    check_all(job, machine, rows)?;
    Ok(length_of(rows))
}

// An answer as it is: it accepts exactly the valid schedules.
fn judged<M: Machine>(
    job: &Job,
    machine: &M,
    rows: &[Row],
    given: Result<u64, CheckRefusal>,
) -> Result<u64, CheckRefusal>
    requires { given ≡ check_answer (M.meaning machine.now) (seen job.now) rows.now }
    ensures answer { result ≡ check_answer (M.meaning machine.now) (seen job.now) rows.now }
    ensures valid { Judges (M.meaning machine.now) (seen job.now) rows.now result }
    ensures exact { AcceptsExactly }
{
    given
}

// The length of the rows, which may come from anyone and in any order; refused unless they are a valid schedule of the
// job on the machine.
pub fn check<M: Machine>(job: &Job, machine: &M, rows: &[Row]) -> Result<u64, CheckRefusal>
    ensures answer { result ≡ check_answer (M.meaning machine.now) (seen job.now) rows.now }
    ensures valid { Judges (M.meaning machine.now) (seen job.now) rows.now result }
    ensures exact { AcceptsExactly }
{
    judged(job, machine, rows, answer(job, machine, rows))
}
