ghost use Rattle.std.specs.Prelude.{◌≡◌, ℕ};
ghost use Rattle.table.specs.Tables.{draft_of};
ghost use Rattle.budget.specs.Weights.{rule_weight};
ghost use Rattle.any_rule.specs.Any.{meaning_of_base};

use any_rule::BaseRule;
use table::table::Table;

// An accepted table, and the rule that was made for it.
#[derive(Clone, Copy)]
pub(crate) struct Ruled {
    pub(crate) table: Table,
    pub(crate) rule: BaseRule,
    ghost weights: { (i : ℕ) → (meaning_of_base rule).weight i ≡ rule_weight (draft_of table) i },
    ghost total: { (meaning_of_base rule).total ≡ (draft_of table).total.0 },
}
