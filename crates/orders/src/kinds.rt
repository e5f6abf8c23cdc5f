// The kinds of order that there are.
ghost use Rattle.std.specs.Prelude.{◌≡◌};
ghost use Rattle.orders.specs.Lawfulness.{refined_lawful};
ghost use Rattle.schedule.specs.Orders.{by_level, by_time, by_number, greater_first, refined};
ghost use Rattle.std.proofs.Common.{rules};

use schedule::order::Priority;
use schedule::priority::{Rank, Standing};

// The greater level first. This and the next differ in one field alone, and one type for both would need a parameter to
// name that field.
#[derive(Clone, Copy, Debug, PartialEq, Eq, Drop)]
pub struct ByLevel;

// The greater block time first.
#[derive(Clone, Copy, Debug, PartialEq, Eq, Drop)]
pub struct ByTime;

// All even, so that block numbers decide.
#[derive(Clone, Copy, Debug, PartialEq, Eq, Drop)]
pub struct ByNumber;

// The first order, and the second where the first says even.
#[derive(Clone, Copy, Debug, PartialEq, Eq, Drop)]
pub struct Refined<A, B> {
    pub first: A,
    pub second: B,
}

// The greater of two numbers is ahead.
fn greater_ahead(one: u64, other: u64) -> Rank
    ensures { result ≡ greater_first one other }
{
    Rank::from(other.cmp(&one))
}

impl Priority for ByLevel {
    ghost meaning = { λ _. by_level };

    ghost lawful = { Prim.search rules };

    fn compare(&self, one: Standing, other: Standing) -> Rank {
        greater_ahead(one.level, other.level)
    }
}

impl Priority for ByTime {
    ghost meaning = { λ _. by_time };

    ghost lawful = { Prim.search rules };

    fn compare(&self, one: Standing, other: Standing) -> Rank {
        greater_ahead(one.time, other.time)
    }
}

impl Priority for ByNumber {
    ghost meaning = { λ _. by_number };

    ghost lawful = { Prim.search rules };

    fn compare(&self, _one: Standing, _other: Standing) -> Rank {
        Rank::Even
    }
}

impl<A: Priority, B: Priority> Priority for Refined<A, B> {
    ghost meaning = { λ r. refined (A.Priority.meaning r.first) (B.Priority.meaning r.second) };

    ghost lawful = { λ r. refined_lawful (A.Priority.meaning r.first) (B.Priority.meaning r.second) (A.Priority.lawful r.first) (B.Priority.lawful r.second) };

    fn compare(&self, one: Standing, other: Standing) -> Rank {
        match self.first.compare(one, other) {
            Rank::Ahead => Rank::Ahead,
            Rank::Even => self.second.compare(one, other),
            Rank::Behind => Rank::Behind,
        }
    }
}
