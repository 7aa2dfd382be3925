ghost use Rattle.std.specs.Prelude.{◌≡◌};
ghost use Rattle.table.specs.Tables.{draft_of};
ghost use Rattle.runs.specs.Numbers.{call_of};
ghost use Rattle.runs.specs.Produced.{Kind, Keeps};
ghost use Rattle.runs.specs.Bounds.{Extends};
ghost use Rattle.trials.specs.Comparing.{Alike};
ghost use Rattle.dispatch.specs.Cores.{state_of};

use budget::rule::Rule;
use dispatch::dispatcher::Dispatcher;
use order::tie_order::TieOrder;
use runs::entry::Entry;

// Makes the call of an entry, and fills in its answer.
pub(crate) fn answer<'o, R: Rule, O: TieOrder>(
    dispatcher: &mut Dispatcher<'o, R, O>,
    entry: Entry,
) -> Entry
    ensures fixed { (dispatcher.new.table ≡ dispatcher.old.table) × (dispatcher.new.order.now ≡ dispatcher.old.order.now) }
    ensures alike { Alike (R.Rule.meaning dispatcher.old.rule) (R.Rule.meaning dispatcher.new.rule) }
    ensures call { call_of result ≡ call_of entry }
    ensures log { (kind : Kind) → Keeps kind (R.Rule.meaning dispatcher.new.rule) → Extends kind (draft_of dispatcher.old.table) (O.TieOrder.ahead dispatcher.old.order.now) (R.Rule.meaning dispatcher.old.rule) (state_of dispatcher.old.core) result (R.Rule.meaning dispatcher.new.rule) (state_of dispatcher.new.core) }
{
    match entry {
        Entry::Arrive(task, _) => Entry::Arrive(task, Some(dispatcher.arrive(task))),
        Entry::Tick(mark, _) => Entry::Tick(mark, Some(dispatcher.tick(mark))),
    }
}
