ghost use Rattle.std.specs.Prelude.{◌≡◌};
ghost use Rattle.table.specs.Tables.{draft_of};
ghost use Rattle.budget.specs.Weights.{rule_weight};

use table::table::Table;
use tasks::task::Level;
use tasks::units::Shares;

// The weight that a rule of the table has for a task.
pub fn rule_weight(table: &Table, number: u32) -> Shares
    ensures { result.0 ≡ rule_weight (draft_of table.now) number }
{
    match (table.level(number), table.weight(number)) {
        (Some(Level::High), Some(weight)) => weight,
        _ => Shares(0),
    }
}
