// Why a job is not taken in. This file has no clause, so that the specs may name its type.
use graph::records::Refusal;
use words::refusal::ReadRefusal;

// The words are refused, or the graph that they stand for cannot be closed.
#[derive(Clone, Copy, PartialEq, Eq, Debug)]
pub enum IntakeRefusal {
    Read(ReadRefusal),
    Close(Refusal),
}
