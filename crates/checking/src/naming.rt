// Which blocks there are, and which have rows.
ghost use Rattle.std.specs.Prelude.{◌≡◌, nat_eq};
ghost use Rattle.std.specs.List.{list_any};
ghost use Rattle.checking.specs.Checking.{first_row, misnames};

use crate::first::first_row;
use schedule::rows::Row;

// Whether a block is listed.
fn is_listed(blocks: &[u32], block: u64) -> bool
    ensures { result ≡ list_any (λ b. nat_eq b block) blocks.now }
{
    blocks.iter().any(|b| u64::from(*b) == block)
}

// Whether a row names the block.
fn is_named(rows: &[Row], block: u64) -> bool
    ensures { result ≡ list_any (λ y. nat_eq y.block block) rows.now }
{
    rows.iter().any(|y| y.block == block)
}

// The first row whose block is not listed, or is named by a row above.
pub(crate) fn first_misnamed(blocks: &[u32], rows: &[Row]) -> Option<u64>
    ensures { result ≡ first_row (misnames blocks.now) rows.now }
{
    first_row(rows, |above, row| {
        !is_listed(blocks, row.block) || is_named(above, row.block)
    })
}
