ghost use Rattle.std.specs.Prelude.{◌≡◌, Some, Ok, Err};
ghost use Rattle.table.specs.Tables.{draft_of};
ghost use Rattle.runs.specs.declared.entry.Entry.{Entry};
ghost use Rattle.runs.specs.Arrivals.{arrival, after_arrival};
ghost use Rattle.runs.specs.Ticking.{tick as the_tick, after_tick, RuleAfter};
ghost use Rattle.runs.specs.Produced.{Kind, lawful, Keeps};
ghost use Rattle.runs.specs.Bounds.{Extends};
ghost use Rattle.dispatch.specs.Cores.{state_of};

use super::dispatcher::Dispatcher;
use budget::rule::Rule;
use order::tie_order::TieOrder;
use runs::answer::{Answer, Job};
use runs::call::Mark;
use runs::refusal::{ArrivalRefusal, TickRefusal};
use tasks::units::Ticks;

impl<'o, R: Rule, O: TieOrder> Dispatcher<'o, R, O> {
    // A job of the task arrives.
    pub fn arrive(&mut self, task: u32) -> Result<(), ArrivalRefusal>
        ensures fixed { (self.new.table ≡ self.old.table) × (self.new.order.now ≡ self.old.order.now) × (self.new.rule ≡ self.old.rule) }
        ensures answer { result ≡ arrival (draft_of self.old.table) (state_of self.old.core) task }
        ensures state { state_of self.new.core ≡ after_arrival (draft_of self.old.table) (state_of self.old.core) task }
        ensures same { elim result [ Ok v ↦ Unit {0} | Err e ↦ self.new.core ≡ self.old.core ] }
        ensures log { (kind : Kind) → Extends kind (draft_of self.old.table) (O.TieOrder.ahead self.old.order.now) (R.Rule.meaning self.old.rule) (state_of self.old.core) (Entry.Arrive task (Some result)) (R.Rule.meaning self.new.rule) (state_of self.new.core) }
    {
        self.check_arrival(task)?;
        let slot = task - 1;
        let clock = self.core.clock;
        let job = Job {
            arrival: clock,
            run: Ticks(0),
        };
        self.core.write(slot, Some(job));
        self.core.last[slot as usize] = Some(clock);
        Ok(())
    }

    // One tick passes; the mark says whether the job that it runs is then done.
    pub fn tick(&mut self, mark: Mark) -> Result<Answer, TickRefusal>
        ensures fixed { (self.new.table ≡ self.old.table) × (self.new.order.now ≡ self.old.order.now) }
        ensures answer { result ≡ the_tick (draft_of self.old.table) (O.TieOrder.ahead self.old.order.now) (R.Rule.meaning self.old.rule).yes (state_of self.old.core) mark }
        ensures state { state_of self.new.core ≡ after_tick (draft_of self.old.table) (O.TieOrder.ahead self.old.order.now) (R.Rule.meaning self.old.rule).yes (state_of self.old.core) mark }
        ensures rule { RuleAfter (draft_of self.old.table) (O.TieOrder.ahead self.old.order.now) (state_of self.old.core) mark (R.Rule.meaning self.old.rule) (R.Rule.meaning self.new.rule) }
        ensures policy { R.Rule.policy self.new.rule ≡ R.Rule.policy self.old.rule }
        ensures same { elim result [ Ok a ↦ Unit {0} | Err e ↦ (self.new.core ≡ self.old.core) × (self.new.rule ≡ self.old.rule) ] }
        ensures log { Extends lawful (draft_of self.old.table) (O.TieOrder.ahead self.old.order.now) (R.Rule.meaning self.old.rule) (state_of self.old.core) (Entry.Tick mark (Some result)) (R.Rule.meaning self.new.rule) (state_of self.new.core) }
        ensures kinds { (kind : Kind) → Keeps kind (R.Rule.meaning self.new.rule) → Extends kind (draft_of self.old.table) (O.TieOrder.ahead self.old.order.now) (R.Rule.meaning self.old.rule) (state_of self.old.core) (Entry.Tick mark (Some result)) (R.Rule.meaning self.new.rule) (state_of self.new.core) }
    {
        self.check_tick()?;
        Ok(self.advance(mark))
    }
}
