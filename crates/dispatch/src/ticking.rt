ghost use Rattle.std.specs.Prelude.{◌≡◌, ◌^◌, ◌<◌, Some};
ghost use Rattle.std.specs.Bool.{then_some};
ghost use Rattle.table.specs.Firsts.{refusal};
ghost use Rattle.table.specs.Tables.{draft_of};
ghost use Rattle.runs.specs.Masks.{mask};
ghost use Rattle.runs.specs.Slots.{seat};
ghost use Rattle.runs.specs.Ticking.{drops, switches, asked, Asked, tick_fault, outcome, Consulted};
ghost use Rattle.dispatch.specs.Cores.{state_of};
ghost use Rattle.dispatch.specs.Steps.{running};
ghost use Rattle.dispatch.specs.Turns.{first_taken};

use super::dispatcher::Dispatcher;
use super::steps::denied;
use super::turn::Taken;
use budget::rule::Rule;
use order::tie_order::TieOrder;
use runs::answer::{Answer, Mode};
use runs::call::Mark;
use runs::refusal::TickRefusal;
use tasks::units::Ticks;

// At this clock every tick is refused.
const CLOCK_END: Ticks = Ticks(1_099_511_627_776);

// The turn of a tick, once the rule was asked.
#[derive(Clone, Copy)]
pub(crate) struct Decided {
    pub(crate) taken: Taken,
    // the tasks that the switch dropped, if the tick switches
    pub(crate) dropped: Option<u32>,
}

impl<'o, R: Rule, O: TieOrder> Dispatcher<'o, R, O> {
    // The first refusal of a tick, if there is one.
    pub(crate) fn check_tick(&self) -> Result<(), TickRefusal>
        ensures { refusal result ≡ tick_fault (state_of self.now.core) }
    {
        if self.core.foreign {
            return Err(TickRefusal::ForeignRule);
        }
        if self.core.clock >= CLOCK_END {
            return Err(TickRefusal::ClockEnd(self.core.clock));
        }
        Ok(())
    }

    // Asks the rule about the first job; where it is denied, the tick switches and the choice is made afresh.
    fn decide(&mut self, first: Taken) -> Decided
        requires { Some first ≡ first_taken (draft_of self.old.table) (O.TieOrder.ahead self.old.order.now) self.old.core.mode self.old.core }
        ensures fixed { (self.new.table ≡ self.old.table) × (self.new.order.now ≡ self.old.order.now) }
        ensures dropped { result.dropped ≡ then_some (switches (draft_of self.old.table) (O.TieOrder.ahead self.old.order.now) (R.Rule.meaning self.old.rule).yes (state_of self.old.core)) (mask 32 (drops (draft_of self.old.table) (seat self.old.core.jobs))) }
        ensures state { state_of self.new.core ≡ running (draft_of self.old.table) (switches (draft_of self.old.table) (O.TieOrder.ahead self.old.order.now) (R.Rule.meaning self.old.rule).yes (state_of self.old.core)) (state_of self.old.core) }
        ensures taken { Some result.taken ≡ first_taken (draft_of self.new.table) (O.TieOrder.ahead self.new.order.now) self.new.core.mode self.new.core }
        ensures grant { Asked (asked (draft_of self.old.table) (O.TieOrder.ahead self.old.order.now) (state_of self.old.core)) (R.Rule.meaning self.old.rule) (R.Rule.meaning self.new.rule) }
        ensures policy { R.Rule.policy self.new.rule ≡ R.Rule.policy self.old.rule }
    {
        if !denied(&mut self.rule, self.core.mode, first) {
            return Decided {
                taken: first,
                dropped: None,
            };
        }
        let dropped = self.switch();
        let again = self.choose_pending(Mode::High).unwrap();
        Decided {
            taken: again,
            dropped: Some(dropped),
        }
    }

    // A tick that is not refused.
    pub(crate) fn advance(&mut self, mark: Mark) -> Answer
        requires { self.old.core.clock.0 < 2 ^ 40 }
        ensures fixed { (self.new.table ≡ self.old.table) × (self.new.order.now ≡ self.old.order.now) }
        ensures answer { result ≡ (outcome (draft_of self.old.table) (O.TieOrder.ahead self.old.order.now) (R.Rule.meaning self.old.rule).yes (state_of self.old.core) mark).answer }
        ensures state { state_of self.new.core ≡ (outcome (draft_of self.old.table) (O.TieOrder.ahead self.old.order.now) (R.Rule.meaning self.old.rule).yes (state_of self.old.core) mark).state }
        ensures rule { Consulted (draft_of self.old.table) (O.TieOrder.ahead self.old.order.now) (state_of self.old.core) mark (R.Rule.meaning self.old.rule) (R.Rule.meaning self.new.rule) }
        ensures policy { R.Rule.policy self.new.rule ≡ R.Rule.policy self.old.rule }
    {
        let clock = self.core.clock;
        let Some(first) = self.choose_pending(self.core.mode) else {
            self.core.clock.0 += 1;
            return Answer {
                clock,
                task: None,
                mode: self.core.mode,
                switched: false,
                dropped: 0,
                ending: None,
            };
        };
        let decided = self.decide(first);
        let mode = self.core.mode;
        let ending = self.serve(decided.taken, mark);
        self.settle();
        Answer {
            clock,
            task: Some(decided.taken.number),
            mode,
            switched: decided.dropped.is_some(),
            dropped: decided.dropped.unwrap_or(0),
            ending,
        }
    }
}
