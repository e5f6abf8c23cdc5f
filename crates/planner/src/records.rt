// The plain records of a task graph. This file has no clause, so that the specs may name its types.

// How far a task graph has come: an open one takes tasks and links in, a closed one has them fixed and its blocks made.
#[derive(Clone, Copy, PartialEq, Eq, Debug)]
pub enum Stage {
    Open,
    Closed,
}
