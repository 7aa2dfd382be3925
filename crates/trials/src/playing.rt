ghost use Rattle.std.specs.Prelude.{◌≡◌, Bool, []};
ghost use Rattle.table.specs.Tables.{draft_of};
ghost use Rattle.runs.specs.States.{OfTable};
ghost use Rattle.runs.specs.Produced.{Kind, Keeps, Produced};
ghost use Rattle.dispatch.specs.Cores.{state_of};
ghost use Rattle.trials.specs.Comparing.{Counting};

use super::answering::answer;
use super::count::{Count, after, ticks_of};
use budget::rule::Rule;
use dispatch::dispatcher::Dispatcher;
use order::tie_order::TieOrder;
use runs::call::Call;
use runs::entry::Entry;
use tasks::units::Ticks;

// Plays the calls, and counts the accepted ticks before the first switch.
pub(crate) fn ticks_before_switch<'o, R: Rule, O: TieOrder>(
    dispatcher: &mut Dispatcher<'o, R, O>,
    calls: &[Call],
) -> Ticks
    ensures { (kind : Kind) → ((rule : R) → Keeps kind (R.Rule.meaning rule)) → Produced kind (draft_of dispatcher.old.table) (O.TieOrder.ahead dispatcher.old.order.now) [] (R.Rule.meaning dispatcher.old.rule) (state_of dispatcher.old.core)
        → OfTable (draft_of dispatcher.old.table) (R.Rule.meaning dispatcher.old.rule)
        → ((over : Bool) × Counting kind (draft_of dispatcher.old.table) (O.TieOrder.ahead dispatcher.old.order.now) (R.Rule.meaning dispatcher.new.rule) (state_of dispatcher.new.core) calls.now result.0 over) }
{
    let mut count = Count::Continue(Ticks(0));
    for call in calls {
        count = after(count, &answer(dispatcher, Entry::from(*call)));
    }
    ticks_of(count)
}
