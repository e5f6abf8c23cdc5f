// Why something was refused. This file has no clause, so that the specs may name its type.

// The layer that refuses, the number under which the refusal is listed, and what it names, as they are printed.
#[derive(Clone, Copy, PartialEq, Eq, Debug)]
pub struct Fault {
    pub layer: u64,
    pub number: u64,
    pub place: u64,
}
