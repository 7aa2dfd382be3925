ghost use Rattle.std.specs.Prelude.{◌≡◌, ℕ, ◌≤◌, nat_lt};
ghost use Rattle.table.specs.Tables.{draft_of};
ghost use Rattle.budget.specs.Meaning.{Meaning};
ghost use Rattle.budget.specs.OfRules.{NewOf, meaning_of_shared, policy_of_shared, budget_of_shared};
ghost use Rattle.std.proofs.Common.{rules, arith};

use super::rule::{Metered, Rule};
use super::shared::Shared;
use super::tally::Tally;
use table::table::Table;
use tasks::units::{Shares, Ticks};

impl Shared {
    // The shared rule of a table, at rest.
    pub fn new(table: &Table) -> Shared
        ensures { NewOf (draft_of table.now) (meaning_of_shared result) }
    {
        Shared {
            tally: Tally::new(table),
        }
    }
}

impl Rule for Shared {
    ghost meaning = { meaning_of_shared };

    ghost policy = { policy_of_shared };

    ghost bounded = { Prim.search rules };

    ghost silent = { Prim.search rules };

    ghost fits = { Prim.search rules };

    fn ask(&self, task: u32, run: Ticks) -> bool {
        self.budget(task) > run
    }

    fn grant(&mut self, task: u32, run: Ticks) -> bool {
        // not by `ask`: a run below the budget is known to have room for one tick more
        let may = run < self.budget(task);
        if may {
            self.tally.raise(task, run);
        }
        may
    }

    fn rest(&mut self) {
        self.tally.rest();
    }

    fn weight(&self, task: u32) -> Shares {
        self.tally.weights.of(task)
    }

    fn total(&self) -> Shares {
        self.tally.weights.total
    }
}

impl Metered for Shared {
    ghost allowance = { budget_of_shared };

    // What the other tasks leave of the total, over the task's weight.
    fn budget(&self, task: u32) -> Ticks {
        let Shares(weight) = self.tally.weights.of(task);
        if weight == 0 {
            return Ticks(0);
        }
        Ticks(self.tally.left_by_others(task).0 / weight)
    }
}
