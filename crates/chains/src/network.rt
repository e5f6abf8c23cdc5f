//! The messages between blocks, with an order to process the blocks in.

ghost use Rattle.std.specs.Prelude.{◌≤◌, length};
ghost use Rattle.chains.specs.Chains.{Blocks, Once, Forward};

use crate::message::Message;

pub mod checked;

/// At most 1,024 messages and an order of at most 256 blocks, numbered 1 to 256 and each once, in which
/// every message goes from an earlier place to a later one.
/// Who can prove that of an order makes the value as it stands; `checked::is_processing_order` tests it.
#[derive(Clone, Copy)]
pub struct Network<'a> {
    pub messages: &'a [Message],
    pub order: &'a [u32],
    ghost few: { length messages.now ≤ 1024 },
    ghost short: { length order.now ≤ 256 },
    ghost blocks: { Blocks order.now },
    ghost once: { Once order.now },
    ghost forward: { Forward messages.now order.now },
}
