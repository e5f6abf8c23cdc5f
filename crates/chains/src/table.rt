//! Places in tables by block number.

ghost use Rattle.std.specs.Prelude.{◌≡◌, ◌+◌, ◌*◌, slice_index};

use crate::limits::NUMBERS;

/// The entry at a place of a table, 0 past its end.
pub fn entry(table: &[u64], place: usize) -> u64
    ensures { result ≡ slice_index table.now place }
{
    table.get(place).copied().unwrap_or(0)
}

/// The place of a step in a table of step costs.
pub fn step_place(from: u32, to: u32) -> usize
    ensures { result ≡ from * 257 + to }
{
    from as usize * NUMBERS + to as usize
}
