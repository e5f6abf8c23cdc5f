// An order of one of two types, so that one list can hold orders of both.
ghost use Rattle.either.specs.Either.{either};
ghost use Rattle.std.proofs.Common.{rules};

use crate::order::Priority;
use crate::priority::{Rank, Standing};
use either::{Either, for_both};

// It means what the order that it holds means.
impl<L: Priority, R: Priority> Priority for Either<L, R> {
    ghost meaning = { λ e. either L.Priority.meaning R.Priority.meaning e };

    ghost lawful = { Prim.search rules };

    fn compare(&self, one: Standing, other: Standing) -> Rank {
        for_both!(self, order => order.compare(one, other))
    }
}
