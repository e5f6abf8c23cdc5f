// A partition with the messages between its blocks.
ghost use Rattle.std.specs.Prelude.{◌≡◌};
ghost use Rattle.partition.specs.Held.{held};
ghost use Rattle.partition.specs.Named.{messages_of};

use crate::partition::Partition;
use crate::partition::crossings::Crossings;

pub mod network;

// A partition with its messages, gathered once for what one call asks of it.
#[derive(Drop)]
pub(crate) struct WithCrossings<'a> {
    pub(crate) partition: Partition<'a>,
    pub(crate) crossings: Crossings,
    ghost all: { held crossings ≡ messages_of partition },
}
