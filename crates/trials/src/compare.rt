ghost use Rattle.std.specs.Prelude.{◌≡◌, Ok, Err};
ghost use Rattle.table.specs.Tables.{draft_of};
ghost use Rattle.runs.specs.States.{OfTable};
ghost use Rattle.trials.specs.Comparing.{Compared};

use super::playing::ticks_before_switch;
use super::refusal::CompareRefusal;
use budget::rule::Rule;
use budget::shared::Shared;
use dispatch::dispatcher::Dispatcher;
use order::tie_order::TieOrder;
use runs::call::Call;
use table::table::Table;
use tasks::units::Ticks;

// The accepted ticks before the first switch, under each of two rules.
#[derive(Clone, Copy, PartialEq, Eq, Debug)]
pub struct Counts {
    pub shared: Ticks,
    pub other: Ticks,
}

// Plays the calls under the table's shared rule and under another, and counts the ticks before the first switch of each.
pub fn compare<R: Rule + Drop, O: TieOrder>(
    table: &Table,
    order: &O,
    other: R,
    calls: &[Call],
) -> Result<Counts, CompareRefusal>
    ensures counts { elim result [ Ok c ↦ ((last : R) × Compared (draft_of table.now) (O.TieOrder.ahead order.now) calls.now c.shared.0 c.other.0 (R.Rule.meaning last)) | Err e ↦ Unit {0} ] }
    ensures refused { elim result [ Ok c ↦ OfTable (draft_of table.now) (R.Rule.meaning other) | Err e ↦ (OfTable (draft_of table.now) (R.Rule.meaning other) → ⊥) ] }
{
    let mut sharing = Dispatcher::new(table, Shared::new(table), order);
    let mut second = Dispatcher::new(table, other, order);
    if second.rule_is_foreign() {
        return Err(CompareRefusal::ForeignRule);
    }
    let shared = ticks_before_switch(&mut sharing, calls);
    let other = ticks_before_switch(&mut second, calls);
    Ok(Counts { shared, other })
}
