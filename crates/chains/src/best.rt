//! The best over all chains from each block: one run for every figure.

ghost use Rattle.std.specs.Prelude.{◌≡◌, ℕ, ◌<◌, ◌≤◌, map, length, fold, Decides, slice_index, slice_index_or, slice_set};
ghost use Rattle.chains.specs.Lists.{In};
ghost use Rattle.chains.specs.Chains.{successors, Enumerates, Ordered};
ghost use Rattle.chains.specs.Figures.{BestAtEach};
ghost use Rattle.chains.specs.Links.{latest, message_at, number_of};

use crate::figure::ChainFigure;
use crate::limits::{MAX_MESSAGES, NUMBERS};
use crate::message::Message;
use crate::network::Network;

/// The messages by sender: for each block its last message, and for each message the one before it from that block.
// lists by number in two tables: a planning loop may use no heap, and one pass over the messages fills them
// an entry is one more than a message's number, or 0: a table of `Option`s is twice as large
#[derive(Clone, Copy)]
struct BySender<'a> {
    messages: &'a [Message],
    head: [u16; NUMBERS],
    next: [u16; MAX_MESSAGES],
    ghost few: { length messages.now ≤ 1024 },
    ghost receivers: { (i : ℕ) → i < length messages.now → (message_at messages.now i).to ≤ 256 },
    ghost heads: { (b : ℕ) → b < 257 → number_of (slice_index head b) ≡ latest messages.now b (length messages.now) },
    ghost nexts: { (i : ℕ) → i < length messages.now → number_of (slice_index next i) ≡ latest messages.now (message_at messages.now i).from i },
}

impl<'a> BySender<'a> {
    /// Gathers the messages by sender.
    #[tactic(auto, using(crate::proofs::Links::gathered_more))]
    fn gather(messages: &'a [Message]) -> BySender<'a>
        requires few { length messages.now ≤ 1024 }
        requires ends { (i : ℕ) → i < length messages.now → ((message_at messages.now i).from ≤ 256) × ((message_at messages.now i).to ≤ 256) }
        ensures { result.messages.now ≡ messages.now }
    {
        // filled in place: tables that are moved into the struct are copied
        let mut links = BySender {
            messages,
            head: [0; NUMBERS],
            next: [0; MAX_MESSAGES],
        };
        // `next[i]` and no `zip` with `iter_mut`: an invariant would have no term for the table that it writes
        for (i, m) in messages.iter().enumerate() {
            links.next[i] = links.head[m.from as usize];
            links.head[m.from as usize] = i as u16 + 1;
        }
        links
    }

    /// The last message from `block`.
    fn last_from(&self, block: u32) -> Option<usize>
        requires { block ≤ 256 }
        ensures { result ≡ latest self.now.messages.now block (length self.now.messages.now) }
    {
        number(self.head[block as usize])
    }

    /// The message before number `i` from the same sender.
    fn one_before(&self, i: usize) -> Option<usize>
        requires { i < length self.now.messages.now }
        ensures { result ≡ latest self.now.messages.now (message_at self.now.messages.now i).from i }
    {
        number(self.next[i])
    }

    /// The best over all chains from `block`, from the bests of its successors. A successor that several messages
    /// name is taken once: its entry of `met` is then `block`, which no entry is before.
    fn best_from<F: ChainFigure>(
        &self,
        figure: &F,
        block: u32,
        best: &[F::Value; NUMBERS],
        met: &mut [u16; NUMBERS],
    ) -> F::Value
        requires within { block ≤ 256 }
        requires fresh { (s : ℕ) → slice_index met.now s ≡ block → ⊥ }
        ensures value { (d : F.Value) → result ≡ fold (F.meaning figure.now).better ((F.meaning figure.now).alone block) (map (λ s. (F.meaning figure.now).extended block s (slice_index_or best.now s d)) (successors self.now.messages.now block)) }
        ensures others { (s : ℕ) → (slice_index met.new s ≡ block → ⊥) → slice_index met.new s ≡ slice_index met.old s }
    {
        let messages = self.messages;
        let mut found = figure.alone(block);
        let mut at = self.last_from(block);
        while let Some(i) = at {
            let to = messages[i].to;
            if first_time(met, to, block as u16) {
                found = better_through(figure, found, block, to, best);
            }
            at = self.one_before(i);
        }
        found
    }
}

/// What an entry of the tables stands for: nothing at 0, and else one less.
#[tactic(auto, using(crate::proofs::Links::number_is))]
fn number(entry: u16) -> Option<usize>
    ensures { result ≡ number_of entry }
{
    usize::from(entry).checked_sub(1)
}

/// What was found so far, or what the step from `block` to `to` leads to, whichever is better.
fn better_through<F: ChainFigure>(
    figure: &F,
    found: F::Value,
    block: u32,
    to: u32,
    best: &[F::Value; NUMBERS],
) -> F::Value
    requires { to ≤ 256 }
    ensures { (d : F.Value) → result ≡ (F.meaning figure.now).better found ((F.meaning figure.now).extended block to (slice_index_or best.now to d)) }
{
    figure.better(found, figure.extend(block, to, best[to as usize]))
}

/// Whether `block` was last met from another than `from`; afterwards it is met from `from`.
fn first_time(met: &mut [u16; NUMBERS], block: u32, from: u16) -> bool
    requires { block ≤ 256 }
    ensures new { Decides result (slice_index met.old block ≡ from → ⊥) }
    ensures after { met.new ≡ slice_set met.old block from }
{
    let new = met[block as usize] != from;
    met[block as usize] = from;
    new
}

/// The best over all chains from each block of a good order, from its last block to its first.
fn best_over<F: ChainFigure>(
    figure: &F,
    messages: &[Message],
    order: &[u32],
    best: &mut [F::Value; NUMBERS],
)
    requires { Ordered messages.now order.now }
    ensures bests { BestAtEach (F.meaning figure.now) messages.now order.now best.old best.new }
    ensures chains { (b : ℕ) → In b order.now → Enumerates messages.now (length order.now) b }
{
    let links = BySender::gather(messages);
    // the block from which each was last met: 0, which is no block's number, before any was
    let mut met = [0; NUMBERS];
    for block in order.iter().rev() {
        let value = links.best_from(figure, *block, best, &mut met);
        best[*block as usize] = value;
    }
}

/// For each block of the order, the best over all chains that begin with it, each chain once; every other entry
/// of `best` stays as it was. One pass over the messages and one over the order.
pub fn best_from_each<F: ChainFigure>(figure: &F, network: &Network, best: &mut [F::Value; NUMBERS])
    ensures bests { BestAtEach (F.meaning figure.now) network.now.messages.now network.now.order.now best.old best.new }
    ensures chains { (b : ℕ) → In b network.now.order.now → Enumerates network.now.messages.now (length network.now.order.now) b }
{
    best_over(figure, network.messages, network.order, best);
}
