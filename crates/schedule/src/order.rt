// What code over any order of blocks may ask of it.
ghost use Rattle.std.specs.Prelude.{◌≡◌, ℕ};
ghost use Rattle.schedule.specs.Orders.{Order, Lawful, number_of, rank_of, earlier};
ghost use Rattle.schedule.specs.declared.priority.Standing.{Standing as Known};

use crate::priority::{Rank, Standing};
use std::cmp::Ordering;

pub trait Priority {
    // What the order means: every answer is a function of it, so the same question has the same answer each time.
    ghost meaning: { Self → Order };

    // What the order says of one block beside another.
    fn compare(&self, one: Standing, other: Standing) -> Rank
        ensures { result ≡ meaning self.now one other };

    // The laws that each order keeps.
    ghost lawful: { (o : Self) → Lawful (meaning o) };
}

impl Rank {
    // The number of each case.
    pub fn number(&self) -> u32
        ensures { result ≡ number_of self.now }
    {
        match self {
            Rank::Ahead => 0,
            Rank::Even => 1,
            Rank::Behind => 2,
        }
    }
}

impl From<Ordering> for Rank {
    ghost from_gives = { λ order rank. rank ≡ rank_of order };

    // What comes first of two is ahead.
    fn from(order: Ordering) -> Self {
        match order {
            Ordering::Less => Rank::Ahead,
            Ordering::Equal => Rank::Even,
            Ordering::Greater => Rank::Behind,
        }
    }
}

// Whether block a, of the one standing, is earlier in the order than block b, of the other.
pub fn is_earlier<O: Priority>(priority: &O, one: Standing, other: Standing, a: u64, b: u64) -> bool
    ensures { (standing : ℕ → Known) → standing a ≡ one → standing b ≡ other → result ≡ earlier (O.meaning priority.now) standing a b }
{
    match priority.compare(one, other) {
        Rank::Ahead => true,
        Rank::Even => a < b,
        Rank::Behind => false,
    }
}
