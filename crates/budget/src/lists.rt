ghost use Rattle.std.specs.Prelude.{◌≡◌, ℕ, ◌+◌, ◌<◌, ◌≤◌, length, IfOk};
ghost use Rattle.table.specs.Firsts.{refusal};
ghost use Rattle.table.specs.Tables.{draft_of};
ghost use Rattle.budget.specs.Searches.{Searched};
ghost use Rattle.budget.specs.Making.{at_slot, counts, may_have, too_large, low_budget};
ghost use Rattle.budget.specs.Slots.{ticks_in};

use super::refusal::Excess;
use table::table::Table;
use tasks::slots::{at_number, filled};
use tasks::task::Level;
use tasks::units::Ticks;

// The largest number that a list may have.
const LARGEST: Ticks = Ticks(100_000);

// A list with one number for each task of a table.
#[derive(Clone, Copy)]
pub(crate) struct Numbers<'a> {
    table: &'a Table,
    list: &'a [Ticks],
    ghost each: { length list.now ≡ (draft_of table.now).count },
    ghost few: { length list.now ≤ 32 },
}

impl<'a> Numbers<'a> {
    // The list, or how many numbers and tasks there are: a pair, as both refusals tell the two.
    pub(crate) fn new(table: &'a Table, list: &'a [Ticks]) -> Result<Numbers<'a>, (usize, usize)>
        ensures refused { refusal result ≡ counts (draft_of table.now) list.now }
        ensures made { IfOk result (λ n. (n.table.now ≡ table.now) × (n.list.now ≡ list.now)) }
    {
        let tasks = table.count() as usize;
        if list.len() != tasks {
            return Err((list.len(), tasks));
        }
        Ok(Numbers { table, list })
    }

    // The first number that does not pass.
    fn check_each<F: Fn(Excess) -> bool>(&self, passes: F) -> Result<(), Excess>
        requires { F.IsAlwaysCallable passes }
        ensures { Searched (λ k. F.post passes (at_slot self.now.list.now k)) (length self.now.list.now) (at_slot self.now.list.now) result }
    {
        for (slot, ticks) in self.list.iter().enumerate() {
            let number = Excess {
                task: slot as u32 + 1,
                ticks: *ticks,
            };
            if !passes(number) {
                return Err(number);
            }
        }
        Ok(())
    }

    // No number is above 100,000.
    pub(crate) fn check_sizes(&self) -> Result<(), Excess>
        ensures { refusal result ≡ too_large self.now.list.now }
    {
        self.check_each(|number| number.ticks <= LARGEST)
    }

    // No low task has a budget but 0.
    pub(crate) fn check_levels(&self) -> Result<(), Excess>
        ensures { refusal result ≡ low_budget (draft_of self.now.table.now) self.now.list.now }
    {
        self.check_each(|budget| may_have(self.table, budget))
    }
}

// Whether the task may have this budget.
fn may_have(table: &Table, budget: Excess) -> bool
    ensures { (k : ℕ) → budget.task ≡ k + 1 → k < (draft_of table.now).count → result ≡ may_have ((draft_of table.now).task k).criticality budget.ticks.0 }
{
    table.level(budget.task) != Some(Level::Low) || budget.ticks == Ticks(0)
}

// The numbers by slot, and 0 behind them.
pub(crate) fn slots_of(list: &[Ticks]) -> [Ticks; 32]
    requires { length list.now ≤ 32 }
    ensures { (i : ℕ) → ticks_in result i ≡ ticks_in list.now i }
{
    filled(list, Ticks(0))
}

// The number of a task, and 0 of an absent one.
pub(crate) fn ticks_of(slots: &[Ticks; 32], task: u32) -> Ticks
    ensures { result.0 ≡ ticks_in slots.now task }
{
    at_number(slots, task).unwrap_or(Ticks(0))
}
