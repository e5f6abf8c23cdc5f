//! Which blocks the chains from a block come to.

ghost use Rattle.std.specs.Prelude.{◌≡◌, true, slice_set};
ghost use Rattle.chains.specs.Reach.{ReachedAtEach, RowsAtEach, reach, reach_laws, reach_row, row_laws};

use crate::best::best_from_each;
use crate::figure::ChainFigure;
use crate::limits::NUMBERS;
use crate::network::Network;

/// Whether a chain contains the goal.
#[derive(Clone, Copy, Debug, PartialEq, Eq)]
pub struct Reach {
    pub goal: u32,
}

impl ChainFigure for Reach {
    type Value = bool;

    ghost meaning = { λ f. reach f.goal };

    ghost laws = { λ f. reach_laws f.goal };

    fn alone(&self, block: u32) -> bool {
        block == self.goal
    }

    fn extend(&self, from: u32, _to: u32, v: bool) -> bool {
        (from == self.goal) | v
    }

    fn better(&self, a: bool, b: bool) -> bool {
        a | b
    }
}

/// For all goals at once, whether a chain contains them: a row with an entry for each block number.
#[derive(Clone, Copy, Debug, PartialEq, Eq)]
pub struct ReachRow;

impl ChainFigure for ReachRow {
    type Value = [bool; NUMBERS];

    ghost meaning = { λ f. reach_row };

    ghost laws = { λ f. row_laws };

    fn alone(&self, block: u32) -> [bool; NUMBERS] {
        with_block([false; NUMBERS], block)
    }

    fn extend(&self, from: u32, _to: u32, v: [bool; NUMBERS]) -> [bool; NUMBERS] {
        with_block(v, from)
    }

    fn better(&self, a: [bool; NUMBERS], b: [bool; NUMBERS]) -> [bool; NUMBERS] {
        // `b[i]` and no `zip`, tried: the invariant of a loop over `iter_mut().zip(..)` has no term for the row that it writes
        let mut row = a;
        for (i, entry) in row.iter_mut().enumerate() {
            *entry |= b[i];
        }
        row
    }
}

/// The row with the block's entry true.
fn with_block(mut row: [bool; NUMBERS], block: u32) -> [bool; NUMBERS]
    ensures { result ≡ slice_set row block true }
{
    // by the index: of what stands in an array after `get_mut` a proof knows nothing
    let place = block as usize;
    if place < NUMBERS {
        row[place] = true;
    }
    row
}

/// For each block of the order, whether some chain that begins with it contains the goal. Every other entry stays as it was.
#[tactic(auto, using(crate::proofs::Reached::reached_at_each))]
pub fn reaches(network: &Network, goal: u32, reached: &mut [bool; NUMBERS])
    ensures { ReachedAtEach network.now.messages.now network.now.order.now goal reached.old reached.new }
{
    best_from_each(&Reach { goal }, network, reached);
}

/// For each block of the order and each number, whether some chain that begins with the block contains the number.
/// Every other row stays as it was.
#[tactic(auto, using(crate::proofs::Reached::rows_at_each))]
pub fn reach_rows(network: &Network, rows: &mut [[bool; NUMBERS]; NUMBERS])
    ensures { RowsAtEach network.now.messages.now network.now.order.now rows.old rows.new }
{
    best_from_each(&ReachRow, network, rows);
}
