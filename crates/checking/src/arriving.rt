// When the data of a row is there. The machine and the rows are two lent things of which no fact is asked, so a struct of both would say no more.
ghost use Rattle.std.specs.Prelude.{◌≡◌};
ghost use Rattle.std.specs.List.{list_any};
ghost use Rattle.std.specs.Result.{result_ok};
ghost use Rattle.machine.specs.Model.{delay_answer};
ghost use Rattle.checking.specs.Checking.{first_row, comes_late, is_awaited, lacks};
ghost use Rattle.checking.specs.Questions.{told};

use crate::first::first_row;
use crate::timing::is_below_sum;
use chains::message::Message;
use machine::Machine;
use schedule::rows::Row;

// How long data of a size is on its way from one row to another, where the machine answers.
fn delay_of<M: Machine>(machine: &M, from: &Row, to: &Row, size: u32) -> Option<u64>
    ensures { result ≡ result_ok (delay_answer (M.meaning machine.now) from.now.processor to.now.processor size) }
{
    let from = u32::try_from(from.processor).ok()?;
    let to = u32::try_from(to.processor).ok()?;
    machine.delay(from, to, size).ok()
}

// Whether `sender` is the row of the message's sender, and the message arrives after a row starts.
fn comes_late<M: Machine>(machine: &M, row: &Row, message: &Message, sender: &Row) -> bool
    ensures { result ≡ comes_late (told (M.meaning machine.now)) row.now message.now sender.now }
{
    sender.block == u64::from(message.from)
        && is_below_sum(
            row.start,
            sender.finish,
            delay_of(machine, sender, row, message.size).unwrap_or(0),
        )
}

// Whether a message arrives after a row starts, by the row of its sender among all rows.
fn is_late<M: Machine>(machine: &M, rows: &[Row], row: &Row, message: &Message) -> bool
    ensures { result ≡ list_any (comes_late (told (M.meaning machine.now)) row.now message.now) rows.now }
{
    rows.iter()
        .any(|sender| comes_late(machine, row, message, sender))
}

// Whether a message goes to the block of a row and arrives after the row starts.
fn is_awaited<M: Machine>(machine: &M, rows: &[Row], row: &Row, message: &Message) -> bool
    ensures { result ≡ is_awaited (told (M.meaning machine.now)) rows.now row.now message.now }
{
    u64::from(message.to) == row.block && is_late(machine, rows, row, message)
}

// Whether some message to the block of a row arrives after the row starts.
fn lacks<M: Machine>(machine: &M, messages: &[Message], rows: &[Row], row: &Row) -> bool
    ensures { result ≡ lacks (told (M.meaning machine.now)) messages.now rows.now row.now }
{
    messages
        .iter()
        .any(|message| is_awaited(machine, rows, row, message))
}

// The first row that starts before its data is there.
pub(crate) fn first_lacking<M: Machine>(
    machine: &M,
    messages: &[Message],
    rows: &[Row],
) -> Option<u64>
    ensures { result ≡ first_row (λ above r. lacks (told (M.meaning machine.now)) messages.now rows.now r) rows.now }
{
    first_row(rows, |_, row| lacks(machine, messages, rows, row))
}
