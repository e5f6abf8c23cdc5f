// Filling the table of a partition.
ghost use Rattle.std.specs.Prelude.{◌≡◌};
ghost use Rattle.joining.specs.Tables.{Tells, reach_in};

use crate::reach::Reach;
use chains::limits::NUMBERS;
use chains::network::Network;
use chains::reach::reach_rows;
use partition::partition::Partition;

// For each block of a partition and each number, whether the block leads to it.
fn rows_of(partition: &Partition<'_>) -> [[bool; NUMBERS]; NUMBERS]
    ensures { Tells partition.now result }
{
    let crossings = partition.crossings();
    let network = Network {
        messages: crossings.as_slice(),
        order: partition.order,
    };
    let mut rows = [[false; NUMBERS]; NUMBERS];
    reach_rows(&network, &mut rows);
    rows
}

impl<'a> Reach<'a> {
    // The partition with its table.
    pub fn of(partition: &Partition<'a>) -> Reach<'a>
        ensures { result.partition ≡ partition.now }
    {
        let rows = rows_of(partition);
        Reach {
            partition: *partition,
            rows,
        }
    }

    // Whether the table has that one block leads to another.
    pub(crate) fn leads(&self, from: u32, to: u32) -> bool
        ensures { result ≡ reach_in self.now.rows from to }
    {
        self.rows
            .get(from as usize)
            .and_then(|row| row.get(to as usize))
            .is_some_and(|leads| *leads)
    }
}
