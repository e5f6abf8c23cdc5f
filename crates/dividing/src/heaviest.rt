// The block with the greatest overhead.
ghost use Rattle.std.specs.Prelude.{◌≡◌, ℕ, slice_index};
ghost use Rattle.std.specs.declared.cmp.Reverse.{Reverse};
ghost use Rattle.partition.specs.Blocks.{block_list};
ghost use Rattle.partition.specs.Times.{AtEach};
ghost use Rattle.dividing.specs.Firsts.{first_greatest};
ghost use Rattle.dividing.specs.Dividing.{heaviest};
ghost use Rattle.dividing.specs.Views.{net_of, blocks_of};

use chains::limits::NUMBERS;
use chains::table::entry;
use machine::Machine;
use partition::partition::Partition;
use std::cmp::Reverse;

// The less of these, the heavier the block: its entry in a table, the greater first, and then its number.
fn rank(table: &[u64; NUMBERS], block: u32) -> (Reverse<u64>, u32)
    ensures { result ≡ (record { 0 = slice_index table.now block }, block) }
{
    (Reverse(entry(table, block as usize)), block)
}

// The block with the greatest entry in a table, of several the one with the least number.
fn heaviest_in(partition: &Partition<'_>, table: &[u64; NUMBERS]) -> u32
    ensures { (f : ℕ → ℕ) → AtEach f table.now → result ≡ first_greatest f 1 (block_list partition.now.blocks.now) }
{
    let order = partition.order;
    order
        .iter()
        .copied()
        .min_by_key(|block| rank(table, *block))
        .unwrap_or(1)
}

// The block with the greatest overhead on the machine, of several the one with the least number.
pub fn heaviest<M: Machine>(partition: &Partition<'_>, machine: &M) -> u32
    ensures { result ≡ heaviest (M.meaning machine.now) (net_of partition.now) (blocks_of partition.now) }
{
    heaviest_in(partition, &partition.overheads(machine))
}
