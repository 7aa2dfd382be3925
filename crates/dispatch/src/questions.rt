ghost use Rattle.std.specs.Prelude.{◌≡◌, ℕ, suc, ◌<◌, List, Some, nat_lt};
ghost use Rattle.tasks.specs.declared.units.Ticks.{Ticks};
ghost use Rattle.table.specs.Tables.{draft_of};
ghost use Rattle.order.specs.Bits.{count};
ghost use Rattle.runs.specs.declared.call.Mark.{Mark};
ghost use Rattle.runs.specs.declared.entry.Entry.{Entry};
ghost use Rattle.runs.specs.States.{period};
ghost use Rattle.runs.specs.Masks.{mask};
ghost use Rattle.runs.specs.Logs.{clock as log_clock, shown, age as log_age};
ghost use Rattle.runs.specs.Ticking.{tick as the_tick};
ghost use Rattle.runs.specs.Produced.{Kind, Produced};
ghost use Rattle.dispatch.specs.Cores.{state_of};
ghost use Rattle.dispatch.specs.Questions.{task_run, age_at, plain, is_pending, lowest_task};

use super::dispatcher::Dispatcher;
use super::lowest::lowest_task;
use super::steps::would_deny;
use budget::rule::{Metered, Rule};
use order::mask::slots_in;
use order::tie_order::TieOrder;
use runs::answer::{Job, Mode};
use tasks::slots::at_number;
use tasks::units::Ticks;

// Questions, which alter nothing.
impl<'o, R: Rule, O: TieOrder> Dispatcher<'o, R, O> {
    // How many ticks were accepted.
    pub fn clock(&self) -> Ticks
        ensures is { result.0 ≡ (state_of self.now.core).clock }
        ensures log { (kind : Kind) (log : List Entry) → Produced kind (draft_of self.now.table) (O.TieOrder.ahead self.now.order.now) log (R.Rule.meaning self.now.rule) (state_of self.now.core) → result.0 ≡ log_clock log }
    {
        self.core.clock
    }

    // Whether the rule's weights or total are not the table's: then every arrival and tick is refused.
    pub fn rule_is_foreign(&self) -> bool
        ensures { result ≡ (state_of self.now.core).foreign }
    {
        self.core.foreign
    }

    pub fn mode(&self) -> Mode
        ensures { result ≡ (state_of self.now.core).mode }
    {
        self.core.mode
    }

    // The pending job of a task.
    pub fn job(&self, task: u32) -> Option<Job>
        ensures is { result ≡ (state_of self.now.core).job task }
        ensures log { (kind : Kind) (log : List Entry) → Produced kind (draft_of self.now.table) (O.TieOrder.ahead self.now.order.now) log (R.Rule.meaning self.now.rule) (state_of self.now.core) → result ≡ shown task log }
    {
        at_number(&self.core.jobs, task).flatten()
    }

    // The age of a task's pending job: the ticks since its arrival. It is always below the task's period.
    pub fn age(&self, task: u32) -> Option<Ticks>
        ensures is { result ≡ age_at (state_of self.now.core).clock ((state_of self.now.core).job task) }
        ensures log { (kind : Kind) (log : List Entry) → Produced kind (draft_of self.now.table) (O.TieOrder.ahead self.now.order.now) log (R.Rule.meaning self.now.rule) (state_of self.now.core) → (plain result ≡ log_age task log) × ((a : Ticks) → result ≡ Some a → a.0 < period (draft_of self.now.table) task) }
    {
        let clock = self.core.clock;
        self.job(task).map(|job| Ticks(clock.0 - job.arrival.0))
    }

    // The task that the coming tick would run: none if it would be idle or refused.
    pub fn coming(&self) -> Option<u32>
        ensures { (mark : Mark) → result ≡ task_run (the_tick (draft_of self.now.table) (O.TieOrder.ahead self.now.order.now) (R.Rule.meaning self.now.rule).yes (state_of self.now.core) mark) }
    {
        self.check_tick().ok()?;
        let first = self.choose_pending(self.core.mode)?;
        if !would_deny(&self.rule, self.core.mode, first) {
            return Some(first.number);
        }
        self.choose(Mode::High, self.kept())
            .map(|again| again.number)
    }

    // The tasks with a pending job: bit i - 1 for task i.
    pub fn pending(&self) -> u32
        ensures is { result ≡ mask 32 (is_pending (state_of self.now.core).job) }
        ensures log { (kind : Kind) (log : List Entry) → Produced kind (draft_of self.now.table) (O.TieOrder.ahead self.now.order.now) log (R.Rule.meaning self.now.rule) (state_of self.now.core) → result ≡ mask 32 (is_pending (λ i. shown i log)) }
    {
        self.core.pending
    }

    // How many tasks have a pending job.
    pub fn pending_count(&self) -> u32
        ensures { result ≡ count 32 (λ k. is_pending (state_of self.now.core).job (suc k)) }
    {
        slots_in(self.core.pending)
    }

    // The lowest task with a pending job.
    pub fn lowest_pending(&self) -> Option<u32>
        ensures { result ≡ lowest_task (λ k. is_pending (state_of self.now.core).job (suc k)) }
    {
        lowest_task(self.core.pending)
    }
}

impl<'o, R: Metered, O: TieOrder> Dispatcher<'o, R, O> {
    // The budget that the rule tells for a task: a job of it may have one more tick exactly where it has run less.
    pub fn budget(&self, task: u32) -> Ticks
        ensures is { result.0 ≡ R.Metered.allowance self.now.rule task }
        ensures tied { (run : ℕ) → (R.Rule.meaning self.now.rule).yes task run ≡ nat_lt run result.0 }
    {
        self.rule.budget(task)
    }
}
