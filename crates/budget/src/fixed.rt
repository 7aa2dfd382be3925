ghost use Rattle.std.specs.Prelude.{ℕ, ◌≤◌};
ghost use Rattle.budget.specs.Meaning.{load};
ghost use Rattle.budget.specs.Slots.{weight_in, ticks_in};

use super::tally::Tally;
use tasks::units::Ticks;

// The fixed rule: each high task has a budget of its own.
#[derive(Clone, Copy)]
pub struct Fixed {
    pub(crate) tally: Tally,
    pub(crate) budgets: [Ticks; 32],
    ghost kept: { (i : ℕ) → ticks_in tally.longest i ≤ ticks_in budgets i },
    ghost within: { load (weight_in tally.weights.by_slot) (ticks_in budgets) ≤ tally.weights.total.0 },
}
