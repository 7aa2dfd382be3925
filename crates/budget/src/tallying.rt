ghost use Rattle.std.specs.Prelude.{◌≡◌, ℕ, suc, ◌+◌, ◌-◌, ◌*◌, ◌^◌, ◌<◌, ◌≤◌, if◌then◌else◌, nat_eq};
ghost use Rattle.table.specs.Tables.{draft_of};
ghost use Rattle.budget.specs.Meaning.{load, raised};
ghost use Rattle.budget.specs.OfRules.{weights_of, total_of, longest_of};
ghost use Rattle.budget.specs.Rules.{others};
ghost use Rattle.budget.specs.Slots.{weight_in, ticks_in};
ghost use Rattle.budget.specs.Weights.{rule_weight};

use super::tally::{Tally, Weights};
use super::weights::rule_weight;
use std::array;
use table::table::Table;
use tasks::slots::at_number;
use tasks::units::{Shares, Ticks};

// The weights of a table's high tasks, by slot.
fn rule_weights(table: &Table) -> [Shares; 32]
    ensures { (i : ℕ) → weight_in result i ≡ rule_weight (draft_of table.now) i }
{
    array::from_fn(|slot| rule_weight(table, slot as u32 + 1))
}

// The longest runs after a rest.
fn no_runs() -> [Ticks; 32]
    ensures zero { (i : ℕ) → ticks_in result i ≡ 0 }
    ensures load { (weights : ℕ → ℕ) → load weights (ticks_in result) ≡ 0 }
{
    [Ticks(0); 32]
}

impl Weights {
    // The weights of a table, and its total.
    pub(crate) fn new(table: &Table) -> Weights
        ensures weights { (i : ℕ) → weight_in result.by_slot i ≡ rule_weight (draft_of table.now) i }
        ensures total { result.total ≡ (draft_of table.now).total }
        ensures count { result.count ≡ (draft_of table.now).count }
    {
        Weights {
            count: table.count() as usize,
            by_slot: rule_weights(table),
            total: table.total(),
        }
    }

    // The task's weight.
    pub(crate) fn of(&self, task: u32) -> Shares
        ensures { result.0 ≡ weight_in self.now.by_slot task }
    {
        at_number(&self.by_slot, task).unwrap_or(Shares(0))
    }

    // The load that these runs would make.
    pub(crate) fn load_of(&self, runs: &[Ticks; 32]) -> Shares
        requires weights { (i : ℕ) → weight_in self.now.by_slot i ≤ 1000000 }
        requires runs { (i : ℕ) → ticks_in runs.now i ≤ 100000 }
        ensures { result.0 ≡ load (weight_in self.now.by_slot) (ticks_in runs.now) }
    {
        // by index, as every sum of a table
        let mut sum = 0;
        for k in 0..self.count {
            sum += self.by_slot[k].0 * runs[k].0;
        }
        Shares(sum)
    }
}

impl Tally {
    // The tally of a table at rest.
    pub(crate) fn new(table: &Table) -> Tally
        ensures weights { (i : ℕ) → weights_of result i ≡ rule_weight (draft_of table.now) i }
        ensures total { result.weights.total ≡ (draft_of table.now).total }
        ensures longest { (i : ℕ) → longest_of result i ≡ 0 }
        ensures count { result.weights.count ≡ (draft_of table.now).count }
    {
        Tally {
            weights: Weights::new(table),
            longest: no_runs(),
        }
    }

    // What task number k + 1 adds to the load, and 0 of the task that is left out.
    fn part(&self, k: usize, task: u32) -> Shares
        requires { k < self.now.weights.count }
        ensures { result.0 ≡ (if nat_eq (suc k) task then 0 else weights_of self.now (suc k) * longest_of self.now (suc k)) }
    {
        if k as u32 + 1 == task {
            return Shares(0);
        }
        Shares(self.weights.by_slot[k].0 * self.longest[k].0)
    }

    // What the load of every other task leaves of the total.
    pub(crate) fn left_by_others(&self, task: u32) -> Shares
        ensures { result.0 ≡ total_of self.now - others (weights_of self.now) (longest_of self.now) task }
    {
        // by index, as every sum of a table: the slot tells the task and its part
        let mut left = self.weights.total.0;
        for k in 0..self.weights.count {
            left -= self.part(k, task).0;
        }
        Shares(left)
    }

    // Raises the task's longest run to at least run + 1.
    pub(crate) fn raise(&mut self, task: u32, run: Ticks)
        requires known { (1 ≤ task) × (task ≤ 32) }
        requires short { run.0 + 1 < 2 ^ 64 }
        requires fits { load (weights_of self.old) (raised (longest_of self.old) task run.0) ≤ total_of self.old }
        ensures weights { self.new.weights ≡ self.old.weights }
        ensures longest { (k : ℕ) → longest_of self.new k ≡ raised (longest_of self.old) task run.0 k }
    {
        let slot = task as usize - 1;
        self.longest[slot] = self.longest[slot].max(Ticks(run.0 + 1));
    }

    // Makes every longest run 0.
    pub(crate) fn rest(&mut self)
        ensures weights { self.new.weights ≡ self.old.weights }
        ensures longest { (k : ℕ) → longest_of self.new k ≡ 0 }
    {
        self.longest = no_runs();
    }
}
