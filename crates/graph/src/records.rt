// The plain records of a graph. This file has no clause, so that the specs may name its types.
// Where there is no link the number is 0 and no Option: the words of a job are written from these fields as they stand,
// and 0 is the format's word for none.

// A task: its time, and the number of its newest outgoing link, 0 where it has none.
#[derive(Clone, Copy, PartialEq, Eq, Debug)]
pub struct Task {
    pub time: u32,
    pub newest: u32,
}

// A link from a sender to a receiver, and the next older link of the same sender, 0 at the end of that list.
#[derive(Clone, Copy, PartialEq, Eq, Debug)]
pub struct Link {
    pub sender: u32,
    pub receiver: u32,
    pub size: u32,
    pub next: u32,
}

// Why a call on a graph is refused. A number in a case is the place that the refusal names.
#[derive(Clone, Copy, PartialEq, Eq, Debug)]
pub enum Refusal {
    WrongStage,
    TimeOutOfRange,
    TooManyTasks,
    NoSuchTask(u32),
    SelfLink(u32),
    SizeTooLarge,
    AlreadyLinked(u32),
    TooManyLinks,
    NoTask,
    Circle(u32),
    OutputTooShort(u32),
}
