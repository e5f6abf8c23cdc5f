// Why a list of job words is refused. This file has no clause, so that the specs may name its type.
use graph::records::Refusal;

// A number in a case is the place that the refusal names. `Refused` is what adding a task or linking two would have
// said, and the word that is at fault.
#[derive(Clone, Copy, Debug, PartialEq, Eq)]
pub enum ReadRefusal {
    TooFewWords(usize),
    WrongEdition,
    CountTooLarge(u32),
    WrongLength(usize),
    WrongPointer(u32),
    NotNamedOnce(u32),
    Refused(u32, Refusal),
}
