ghost use Rattle.std.specs.Prelude.{◌≡◌, ℕ, ◌*◌, ◌≤◌, [], ◌∷◌, length, Ok, Err};
ghost use Rattle.table.specs.Firsts.{first_of, refusal};
ghost use Rattle.table.specs.Tables.{draft_of};
ghost use Rattle.budget.specs.Making.{budgets_fault, low_budget, too_large, mapped, over_total_fault, fixed_fault};
ghost use Rattle.budget.specs.Meaning.{Meaning, load, raised};
ghost use Rattle.budget.specs.OfRules.{weights_of, total_of, longest_of, meaning_of_fixed, policy_of_fixed, budget_of_fixed, FixedOf};
ghost use Rattle.budget.specs.Slots.{ticks_in};
ghost use Rattle.budget.specs.Weights.{rule_weight};
ghost use Rattle.budget.specs.declared.refusal.FixedRefusal.TheVariants.{LowTask, TooLarge};
ghost use Rattle.std.proofs.Common.{rules};
ghost use Rattle.budget.specs.Budgets.{fixed_fits};

use super::fixed::Fixed;
use super::lists::{Numbers, slots_of, ticks_of};
use super::refusal::FixedRefusal;
use super::rule::{Metered, Rule};
use super::tally::Tally;
use table::table::Table;
use tasks::units::{Shares, Ticks};

// 15 and 16.
fn check_budgets(table: &Table, budgets: &[Ticks]) -> Result<(), FixedRefusal>
    ensures { refusal result ≡ first_of (budgets_fault (draft_of table.now) budgets.now ∷ mapped LowTask (low_budget (draft_of table.now) budgets.now) ∷ mapped TooLarge (too_large budgets.now) ∷ []) }
{
    let numbers = Numbers::new(table, budgets).map_err(|(budgets, tasks)| FixedRefusal::Count(
        budgets, tasks,
    ))?;
    numbers.check_levels().map_err(FixedRefusal::LowTask)?;
    numbers.check_sizes().map_err(FixedRefusal::TooLarge)
}

impl Fixed {
    // The fixed rule of a table with these budgets, one for each task, at rest.
    pub fn new(table: &Table, budgets: &[Ticks]) -> Result<Fixed, FixedRefusal>
        ensures refused { refusal result ≡ fixed_fault (draft_of table.now) budgets.now }
        ensures made { elim result [ Ok f ↦ FixedOf (draft_of table.now) budgets.now f | Err e ↦ Unit {0} ] }
    {
        check_budgets(table, budgets)?;
        let tally = Tally::new(table);
        let slots = slots_of(budgets);
        let sum = tally.weights.load_of(&slots);
        if sum > tally.weights.total {
            return Err(FixedRefusal::OverTotal(sum, tally.weights.total));
        }
        Ok(Fixed {
            tally,
            budgets: slots,
        })
    }
}

// Beside that for `Shared`: the bodies are the same over another budget. One impl for both would be over a trait of ways to budget,
// with laws for what a raise and a rest leave true, and longer than these five.
impl Rule for Fixed {
    ghost meaning = { meaning_of_fixed };

    ghost policy = { policy_of_fixed };

    ghost bounded = { Prim.search rules };

    ghost silent = { Prim.search rules };

    ghost fits = { λ x. fixed_fits (weights_of x.tally) (total_of x.tally) (longest_of x.tally) (ticks_in x.budgets) x.kept x.within };

    fn ask(&self, task: u32, run: Ticks) -> bool {
        self.budget(task) > run
    }

    fn grant(&mut self, task: u32, run: Ticks) -> bool {
        // not by `ask`: a run below the budget is known to have room for one tick more
        let may = run < self.budget(task);
        if may {
            self.tally.raise(task, run);
        }
        may
    }

    fn rest(&mut self) {
        self.tally.rest();
    }

    fn weight(&self, task: u32) -> Shares {
        self.tally.weights.of(task)
    }

    fn total(&self) -> Shares {
        self.tally.weights.total
    }
}

impl Metered for Fixed {
    ghost allowance = { budget_of_fixed };

    // The task's own budget, and 0 where it has no weight.
    fn budget(&self, task: u32) -> Ticks {
        if self.tally.weights.of(task) == Shares(0) {
            return Ticks(0);
        }
        ticks_of(&self.budgets, task)
    }
}
