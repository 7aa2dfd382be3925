ghost use Rattle.std.specs.Prelude.{◌≡◌, ℕ, suc, ◌≤◌};
ghost use Rattle.budget.specs.Meaning.{load};
ghost use Rattle.budget.specs.Slots.{weight_in, ticks_in};

use tasks::units::{Shares, Ticks};

// The weights of a table's high tasks, by slot, and the total that they draw on. The memory is fixed: 32 slots, and the count of tasks beside them, to which the load's loop keeps.
#[derive(Clone, Copy)]
pub(crate) struct Weights {
    pub(crate) count: usize,
    pub(crate) by_slot: [Shares; 32],
    pub(crate) total: Shares,
    ghost few: { count ≤ 32 },
    ghost absent: { (k : ℕ) → count ≤ k → weight_in by_slot (suc k) ≡ 0 },
}

// What the rules of a table keep alike: the weights, and the longest run of each task since the last rest. The two are not one
// list of pairs: a rest clears every longest run at once, and the weights are also multiplied by budgets.
#[derive(Clone, Copy)]
pub(crate) struct Tally {
    pub(crate) weights: Weights,
    pub(crate) longest: [Ticks; 32],
    ghost within: { load (weight_in weights.by_slot) (ticks_in longest) ≤ weights.total.0 },
}
