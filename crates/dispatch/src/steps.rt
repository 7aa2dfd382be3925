ghost use Rattle.std.specs.Prelude.{◌≡◌, ℕ, ◌+◌, ◌^◌, ◌<◌, true, not, ◌&&◌, Some};
ghost use Rattle.std.specs.Bool.{then_some};
ghost use Rattle.table.specs.Tables.{draft_of};
ghost use Rattle.order.specs.Bits.{bit};
ghost use Rattle.runs.specs.Masks.{mask};
ghost use Rattle.runs.specs.Slots.{seat};
ghost use Rattle.runs.specs.Ticking.{drops, ending as the_ending, falls_short as is_short, none_pending, LetRest, Asked, denied as is_denied};
ghost use Rattle.dispatch.specs.Cores.{state_of, drops_at};
ghost use Rattle.dispatch.specs.Steps.{running, served_state, settled, rest_of};
ghost use Rattle.dispatch.specs.Turns.{turn_of_taken, asked_of, first_taken};

use super::dispatcher::Dispatcher;
use super::drops::{clear, past_assured, without};
use super::lookup::is_high;
use super::turn::Taken;
use budget::rule::Rule;
use order::tie_order::TieOrder;
use runs::answer::{Ending, Job, Mode};
use runs::call::Mark;
use tasks::task::{Criticality, Task};
use tasks::units::Ticks;

// Whether the rule is asked about the first job: in low mode, if it is high. The mode is a parameter beside the turn here and below: it is the dispatcher's own, and no turn keeps it.
fn asks(mode: Mode, first: Taken) -> bool
    ensures { asked_of mode first ≡ then_some result (turn_of_taken first) }
{
    mode == Mode::Low && is_high(first.task.criticality)
}

// Asks the rule for a grant, where it is asked at all: whether that was denied.
pub(crate) fn denied<R: Rule>(rule: &mut R, mode: Mode, first: Taken) -> bool
    ensures grant { Asked (asked_of mode first) (R.Rule.meaning rule.old) (R.Rule.meaning rule.new) }
    ensures is { result ≡ is_denied (R.Rule.meaning rule.old).yes (asked_of mode first) }
    ensures policy { R.Rule.policy rule.new ≡ R.Rule.policy rule.old }
{
    asks(mode, first) && !rule.grant(first.number, first.job.run)
}

// Whether a grant would be denied. Apart from `denied`, which alters the rule: one function over the question would state both contracts at each call.
pub(crate) fn would_deny<R: Rule>(rule: &R, mode: Mode, first: Taken) -> bool
    ensures { result ≡ is_denied (R.Rule.meaning rule.now).yes (asked_of mode first) }
{
    asks(mode, first) && !rule.ask(first.number, first.job.run)
}

// Whether a job in this mode has had all that it gets.
fn falls_short(criticality: Criticality, mode: Mode, run: Ticks) -> bool
    ensures { result ≡ is_short mode criticality run.0 }
{
    match (mode, criticality) {
        (Mode::High, Criticality::Low { assured }) => run == assured,
        _ => false,
    }
}

// How a job of the task ends, if it does, once it has run so far.
fn ending(task: Task, mode: Mode, mark: Mark, run: Ticks) -> Option<Ending>
    ensures { result ≡ the_ending task mode mark run.0 }
{
    match mark {
        Mark::Done => Some(Ending::Done),
        Mark::NotDone if run == task.worst => Some(Ending::Limit),
        Mark::NotDone if falls_short(task.criticality, mode, run) => Some(Ending::Short),
        Mark::NotDone => None,
    }
}

// The job after a tick: gone if it ended.
fn rest_of(ending: Option<Ending>, arrival: Ticks, run: Ticks) -> Option<Job>
    ensures { result ≡ rest_of ending arrival run }
{
    ending.is_none().then_some(Job { arrival, run })
}

impl<'o, R: Rule, O: TieOrder> Dispatcher<'o, R, O> {
    // The mode becomes high, and the low jobs that have had their assured part are dropped.
    pub(crate) fn switch(&mut self) -> u32
        ensures fixed { (self.new.table ≡ self.old.table) × (self.new.order.now ≡ self.old.order.now) × (self.new.rule ≡ self.old.rule) }
        ensures dropped { result ≡ mask 32 (drops (draft_of self.old.table) (seat self.old.core.jobs)) }
        ensures state { state_of self.new.core ≡ running (draft_of self.old.table) true (state_of self.old.core) }
    {
        let dropped = past_assured(&self.table, &self.core.jobs, self.core.pending);
        clear(&mut self.core.jobs, dropped);
        self.core.pending = without(self.core.pending, dropped);
        self.core.mode = Mode::High;
        dropped
    }

    // The slots of the jobs that a switch would keep.
    pub(crate) fn kept(&self) -> u32
        ensures { (k : ℕ) → bit result k ≡ (bit self.now.core.pending k && not (drops_at (draft_of self.now.table) self.now.core.jobs k)) }
    {
        let past = past_assured(&self.table, &self.core.jobs, self.core.pending);
        without(self.core.pending, past)
    }

    // The job has its tick, and ends or goes on.
    pub(crate) fn serve(&mut self, taken: Taken, mark: Mark) -> Option<Ending>
        requires first { Some taken ≡ first_taken (draft_of self.old.table) (O.TieOrder.ahead self.old.order.now) self.old.core.mode self.old.core }
        requires early { self.old.core.clock.0 < 2 ^ 40 }
        ensures fixed { (self.new.table ≡ self.old.table) × (self.new.order.now ≡ self.old.order.now) × (self.new.rule ≡ self.old.rule) }
        ensures ending { result ≡ the_ending taken.task self.old.core.mode mark (taken.job.run.0 + 1) }
        ensures state { state_of self.new.core ≡ served_state (draft_of self.old.table) mark (state_of self.old.core) (turn_of_taken taken) }
    {
        let run = Ticks(taken.job.run.0 + 1);
        let ending = ending(taken.task, self.core.mode, mark, run);
        let rest = rest_of(ending, taken.job.arrival, run);
        self.core.write(taken.number - 1, rest);
        self.core.clock.0 += 1;
        ending
    }

    // With no job pending the mode is low and the rule rests.
    pub(crate) fn settle(&mut self)
        ensures fixed { (self.new.table ≡ self.old.table) × (self.new.order.now ≡ self.old.order.now) }
        ensures state { state_of self.new.core ≡ settled (state_of self.old.core) }
        ensures rest { LetRest (none_pending (seat self.old.core.jobs)) (R.Rule.meaning self.old.rule) (R.Rule.meaning self.new.rule) }
        ensures policy { R.Rule.policy self.new.rule ≡ R.Rule.policy self.old.rule }
    {
        if self.core.pending == 0 {
            self.core.mode = Mode::Low;
            self.rule.rest();
        }
    }
}
