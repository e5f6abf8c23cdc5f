//! An order that was not proved good is tested.

ghost use Rattle.std.specs.Prelude.{◌≡◌, ℕ, ◌<◌, ◌≤◌, map, length, Decides, MatchOption, slice_index};
ghost use Rattle.chains.specs.Chains.{Blocks, Once, Ordered};
ghost use Rattle.chains.specs.Links.{Before, Numbered, message_at, number_of};

use crate::limits::{MAX_BLOCKS, MAX_MESSAGES, NUMBERS};
use crate::message::Message;

/// The entry of a block, 0 past the end of the table.
fn entry(places: &[u16; NUMBERS], block: u32) -> u16
    ensures { result ≡ slice_index places.now block }
{
    places.get(block as usize).copied().unwrap_or(0)
}

/// Whether the table has the sender before the receiver.
#[tactic(auto, using(crate::proofs::Places::before_by))]
fn goes_forward(m: &Message, places: &[u16; NUMBERS]) -> bool
    ensures { Decides result (Before (map number_of places.now) m.now) }
{
    let from = entry(places, m.from);
    let to = entry(places, m.to);
    0 < from && from < to
}

/// Whether every message goes forward.
fn all_forward(messages: &[Message], places: &[u16; NUMBERS]) -> bool
    ensures { Decides result ((i : ℕ) → i < length messages.now → Before (map number_of places.now) (message_at messages.now i)) }
{
    messages.iter().all(|m| goes_forward(m, places))
}

/// The places of the blocks of an order; nothing where a number is no block's or stands twice.
// an entry is one more than a place, or 0: a table of `Option`s is twice as large
fn places_of(order: &[u32]) -> Option<[u16; NUMBERS]>
    requires { length order.now ≤ 256 }
    ensures { MatchOption result (Blocks order.now → Once order.now → ⊥) (λ places. Numbered order.now (map number_of places)) }
{
    let mut places = [0; NUMBERS];
    for (k, b) in order.iter().enumerate() {
        let block = *b as usize;
        if block == 0 || block > MAX_BLOCKS || places[block] != 0 {
            return None;
        }
        places[block] = k as u16 + 1;
    }
    Some(places)
}

/// Whether this is a processing order for these messages. Where it is, `Network { messages, order }` can be made.
pub fn is_processing_order(messages: &[Message], order: &[u32]) -> bool
    ensures { Decides result (Ordered messages.now order.now) }
{
    if messages.len() > MAX_MESSAGES || order.len() > MAX_BLOCKS {
        return false;
    }
    // no `is_some_and`, tried: a closure that lends its own argument tells the proof nothing of its answer
    let Some(places) = places_of(order) else {
        return false;
    };
    all_forward(messages, &places)
}
