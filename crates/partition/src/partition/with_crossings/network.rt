// The messages of a partition with its processing order.
ghost use Rattle.std.specs.Prelude.{◌≡◌};
ghost use Rattle.partition.specs.Named.{messages_of};

use crate::partition::Partition;
use crate::partition::with_crossings::WithCrossings;
use chains::message::Message;
use chains::network::Network;

impl<'a> Partition<'a> {
    // The partition with the messages between its blocks.
    pub(crate) fn with_crossings(&self) -> WithCrossings<'a>
        ensures { result.partition ≡ self.now }
    {
        let crossings = self.crossings();
        WithCrossings {
            partition: *self,
            crossings,
        }
    }
}

impl WithCrossings<'_> {
    // The messages, in the order of their links.
    pub(crate) fn messages(&self) -> &[Message]
        ensures { result.now ≡ messages_of self.now.partition }
    {
        self.crossings.as_slice()
    }

    // The messages with the processing order.
    pub(crate) fn network(&self) -> Network<'_>
        ensures messages { result.messages.now ≡ messages_of self.now.partition }
        ensures order { result.order.now ≡ self.now.partition.order.now }
    {
        Network {
            messages: self.messages(),
            order: self.partition.order,
        }
    }
}
