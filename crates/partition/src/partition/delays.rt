// The delay chain of a partition on a machine.
ghost use Rattle.std.specs.Prelude.{◌≡◌, ℕ, ◌+◌, ◌*◌, ◌≤◌, max, length, slice_index, slice_set};
ghost use Rattle.chains.specs.Sums.{steps_total};
ghost use Rattle.partition.specs.Costs.{AtEachStep};
ghost use Rattle.partition.specs.Greatest.{GreatestOver, GreatestStep};
ghost use Rattle.partition.specs.Named.{messages_of, list_of, step_cost_of, delay_of, delay_chain_of};
ghost use Rattle.partition.specs.Times.{AtEach};

use crate::partition::Partition;
use crate::partition::with_crossings::WithCrossings;
use chains::limits::{NUMBERS, STEPS};
use chains::sums::greatest_step_sums;
use chains::table::step_place;
use machine::{Machine, greatest_delay};

// The table with the cost of a step raised to a delay, where it was less.
fn raise_at(table: &mut [u64; STEPS], from: u32, to: u32, delay: u64)
    requires sender { from ≤ 256 }
    requires receiver { to ≤ 256 }
    ensures { table.new ≡ slice_set table.old (from * 257 + to) (max (slice_index table.old (from * 257 + to)) delay) }
{
    let place = step_place(from, to);
    table[place] = table[place].max(delay);
}

impl WithCrossings<'_> {
    // The cost of every step: the largest delay over all messages between its two blocks and all pairs of processors.
    fn step_costs<M: Machine>(&self, machine: &M) -> [u64; STEPS]
        ensures { AtEachStep (step_cost_of (M.meaning machine.now) self.now.partition) result }
    {
        let mut table = [0; STEPS];
        for message in self.messages() {
            let delay = greatest_delay(machine, message.size).unwrap_or(0);
            raise_at(&mut table, message.from, message.to, delay);
        }
        table
    }

    // At each block's number the greatest sum of step costs over the chains that begin with it, and 0 at every other number.
    fn delays<M: Machine>(&self, machine: &M) -> [u64; NUMBERS]
        ensures { AtEach (delay_of (M.meaning machine.now) self.now.partition) result }
    {
        let costs = self.step_costs(machine);
        let mut delays = [0; NUMBERS];
        greatest_step_sums(&self.network(), &costs, &mut delays);
        delays
    }
}

impl Partition<'_> {
    // At each block's number the greatest sum of step costs over the chains that begin with it, and 0 at every other number.
    fn delays<M: Machine>(&self, machine: &M) -> [u64; NUMBERS]
        ensures { AtEach (delay_of (M.meaning machine.now) self.now) result }
    {
        self.with_crossings().delays(machine)
    }

    // The greatest sum of step costs over chains, where a step costs the largest delay over all messages between its two
    // blocks and all pairs of processors.
    pub fn delay_chain<M: Machine>(&self, machine: &M) -> u64
        ensures value { result ≡ delay_chain_of (M.meaning machine.now) self.now }
        ensures greatest { GreatestOver (messages_of self.now) (list_of self.now) (steps_total (step_cost_of (M.meaning machine.now) self.now)) (delay_chain_of (M.meaning machine.now) self.now) }
        ensures steps { (a b : ℕ) → GreatestStep (M.meaning machine.now) (messages_of self.now) a b (step_cost_of (M.meaning machine.now) self.now a b) }
        ensures alone { (M.meaning machine.now).processors ≡ 1 → result ≡ 0 }
        ensures single { length (list_of self.now) ≡ 1 → result ≡ 0 }
    {
        self.greatest_at(&self.delays(machine))
    }
}
