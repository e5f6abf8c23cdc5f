// What is to be placed: blocks with what each takes, their levels, and the messages between them.
ghost use Rattle.std.specs.Prelude.{ℕ, ◌^◌, ◌<◌, ◌≤◌, length, slice_index};
ghost use Rattle.chains.specs.Chains.{Blocks, Once, Forward, place};
ghost use Rattle.chains.specs.Lists.{In};
ghost use Rattle.chains.specs.declared.message.Message.{Message as Sent};

use crate::limits::NUMBERS;
use chains::message::Message;

mod arrivals;
mod bench;
mod boards;
mod choosing;
pub mod placing;

// At most 256 blocks, each once, what each takes and its level at its number, and at most 1,024 messages between them.
// The order is a witness: the same blocks, such that every message goes from an earlier to a later place.
// Who can prove all that makes the value as it stands.
#[derive(Clone, Copy)]
pub struct Problem<'a> {
    pub blocks: &'a [u32],
    pub order: &'a [u32],
    pub times: &'a [u64; NUMBERS],
    pub levels: &'a [u64; NUMBERS],
    pub messages: &'a [Message],
    ghost small: { length blocks.now ≤ 256 },
    ghost numbered: { Blocks blocks.now },
    ghost once: { Once blocks.now },
    ghost long: { ((b : ℕ) → In b blocks.now → 1 ≤ slice_index times.now b) },
    ghost brief: { ((b : ℕ) → In b blocks.now → slice_index times.now b < 2 ^ 40) },
    ghost few: { length messages.now ≤ 1024 },
    ghost sized: { ((m : Sent) → In m messages.now → m.size ≤ 1000000) },
    ghost short: { length order.now ≤ 256 },
    ghost single: { Once order.now },
    ghost listed: { ((b : ℕ) → In b blocks.now → place order.now b < length order.now) },
    ghost known: { ((b : ℕ) → place order.now b < length order.now → place blocks.now b < length blocks.now) },
    ghost forward: { Forward messages.now order.now },
}
