ghost use Rattle.std.specs.Prelude.{◌≡◌, ℕ, ◌≤◌, map, reverse, length, take};
ghost use Rattle.table.specs.Tables.{draft_of};
ghost use Rattle.runs.specs.Numbers.{call_of};
ghost use Rattle.runs.specs.Bounds.{Young};
ghost use Rattle.trials.specs.Comparing.{Alike, Answered};

use super::answering::answer;
use budget::rule::Rule;
use dispatch::dispatcher::Dispatcher;
use order::tie_order::TieOrder;
use runs::entry::Entry;
use table::table::Table;

// Plays the calls of the entries on a new dispatcher, and fills in their answers.
pub fn replay<R: Rule + Drop, O: TieOrder>(table: &Table, rule: R, order: &O, entries: &mut [Entry])
    ensures calls { map call_of entries.new ≡ map call_of entries.old }
    ensures log { (last : R) × Answered (draft_of table.now) (O.TieOrder.ahead order.now) entries.new (R.Rule.meaning last) × Alike (R.Rule.meaning rule) (R.Rule.meaning last) }
    ensures young { (n : ℕ) → n ≤ length entries.new → Young (draft_of table.now) (reverse (take n entries.new)) }
{
    let mut dispatcher = Dispatcher::new(table, rule, order);
    for entry in entries.iter_mut() {
        *entry = answer(&mut dispatcher, *entry);
    }
}
