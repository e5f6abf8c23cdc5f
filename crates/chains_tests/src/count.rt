//! How many chains begin with each block: a figure whose better of two is not idempotent.

ghost use Rattle.std.specs.Prelude.{◌≡◌};
ghost use Rattle.chains_tests.specs.Counts.{CountedAtEach, count_laws, counts};

use chains::best::best_from_each;
use chains::figure::ChainFigure;
use chains::network::Network;

/// Each chain counts one, modulo 2^64.
#[derive(Clone, Copy, Debug, PartialEq, Eq)]
pub struct Count;

impl ChainFigure for Count {
    type Value = u64;

    ghost meaning = { λ f. counts };

    ghost laws = { λ f. count_laws };

    fn alone(&self, _block: u32) -> u64 {
        1
    }

    fn extend(&self, _from: u32, _to: u32, v: u64) -> u64 {
        v
    }

    fn better(&self, a: u64, b: u64) -> u64 {
        a.wrapping_add(b)
    }
}

/// For each block of the order, how many chains begin with it, modulo 2^64. Every other entry stays as it was.
#[tactic(auto, using(crate::proofs::Counting::counted_at_each))]
pub fn count_chains(network: &Network, count: &mut [u64; 257])
    ensures { CountedAtEach network.now.messages.now network.now.order.now count.old count.new }
{
    best_from_each(&Count, network, count);
}
