ghost use Rattle.std.specs.Prelude.{◌≡◌};
ghost use Rattle.table.specs.Tables.{draft_of};
ghost use Rattle.budget.specs.Slots.{ticks_in};
ghost use Rattle.dispatch.specs.Cores.{state_of};
ghost use Rattle.needs.specs.Marks.{mark_at, mark_of};

use super::needs::Needs;
use budget::rule::Rule;
use dispatch::dispatcher::Dispatcher;
use order::tie_order::TieOrder;
use runs::answer::Job;
use runs::call::Mark;
use tasks::units::Ticks;

// The mark of a tick that runs this job.
fn mark_at(need: Ticks, job: Option<Job>) -> Mark
    ensures { result ≡ mark_at need.0 job }
{
    if job.is_some_and(|job| need.0.checked_sub(job.run.0) == Some(1)) {
        Mark::Done
    } else {
        Mark::NotDone
    }
}

impl Needs {
    // The mark of the coming tick: done exactly when the task that it would run has then had as many ticks as its need.
    pub fn mark<'o, R: Rule, O: TieOrder>(&self, dispatcher: &Dispatcher<'o, R, O>) -> Mark
        ensures { result ≡ mark_of (draft_of dispatcher.now.table) (O.TieOrder.ahead dispatcher.now.order.now) (R.Rule.meaning dispatcher.now.rule).yes (state_of dispatcher.now.core) (ticks_in self.now.slots) }
    {
        match dispatcher.coming() {
            Some(task) => mark_at(self.need(task), dispatcher.job(task)),
            None => Mark::NotDone,
        }
    }
}
