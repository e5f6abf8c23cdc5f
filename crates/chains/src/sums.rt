//! The greatest sums along chains: of block times, and of step costs.

ghost use Rattle.std.specs.Prelude.{◌≡◌};
ghost use Rattle.chains.specs.Lists.{total};
ghost use Rattle.chains.specs.Sums.{GreatestAtEach, SmallCosts, SmallTimes, cost_in, steps_total, sum_laws, sums, time_in};

use crate::best::best_from_each;
use crate::figure::ChainFigure;
use crate::limits::NUMBERS;
use crate::network::Network;
use crate::table::{entry, step_place};

/// The sum of the times of a chain's blocks, where the greater is better.
#[derive(Clone, Copy)]
pub struct BlockSums<'a> {
    pub times: &'a [u64; NUMBERS],
}

impl<'a> ChainFigure for BlockSums<'a> {
    type Value = u64;

    ghost meaning = { λ f. sums (time_in f.times.now) (λ p q. time_in f.times.now p) };

    ghost laws = { λ f. sum_laws (time_in f.times.now) (λ p q. time_in f.times.now p) };

    fn alone(&self, block: u32) -> u64 {
        let times = self.times;
        entry(times, block as usize)
    }

    fn extend(&self, from: u32, _to: u32, v: u64) -> u64 {
        self.alone(from).saturating_add(v)
    }

    fn better(&self, a: u64, b: u64) -> u64 {
        a.max(b)
    }
}

/// The sum of the costs of a chain's steps, where the greater is better. The cost of a step stands at its
/// `step_place`; past the end of the table a step costs nothing.
#[derive(Clone, Copy)]
pub struct StepSums<'a> {
    pub costs: &'a [u64],
}

impl<'a> ChainFigure for StepSums<'a> {
    type Value = u64;

    ghost meaning = { λ f. sums (λ b. 0) (cost_in f.costs.now) };

    ghost laws = { λ f. sum_laws (λ b. 0) (cost_in f.costs.now) };

    fn alone(&self, _block: u32) -> u64 {
        0 // no step
    }

    fn extend(&self, from: u32, to: u32, v: u64) -> u64 {
        entry(self.costs, step_place(from, to)).saturating_add(v)
    }

    fn better(&self, a: u64, b: u64) -> u64 {
        a.max(b)
    }
}

/// For each block of the order, the greatest sum of block times over the chains that begin with it, no more than
/// fits a u64; where every time is below 2^56, that is the greatest sum itself. Every other entry stays as it was.
#[tactic(auto, using(crate::proofs::Greatest::block_sums_at_each))]
pub fn greatest_block_sums(network: &Network, times: &[u64; NUMBERS], greatest: &mut [u64; NUMBERS])
    ensures { GreatestAtEach (total (time_in times.now)) (SmallTimes network.now.order.now (time_in times.now)) network.now.messages.now network.now.order.now greatest.old greatest.new }
{
    best_from_each(&BlockSums { times }, network, greatest);
}

/// For each block of the order, the greatest sum of step costs over the chains that begin with it, no more than
/// fits a u64; where every step costs less than 2^56, that is the greatest sum itself. Every other entry stays as it was.
#[tactic(auto, using(crate::proofs::Greatest::step_sums_at_each))]
pub fn greatest_step_sums(network: &Network, costs: &[u64], greatest: &mut [u64; NUMBERS])
    ensures { GreatestAtEach (steps_total (cost_in costs.now)) (SmallCosts network.now.messages.now (cost_in costs.now)) network.now.messages.now network.now.order.now greatest.old greatest.new }
{
    best_from_each(&StepSums { costs }, network, greatest);
}
