ghost use Rattle.std.specs.Prelude.{◌≡◌, ◌+◌, ◌^◌, ◌<◌, ◌≤◌, true};
ghost use Rattle.table.specs.Tables.{draft_of};
ghost use Rattle.table.specs.Tasks.{virtual_deadline};
ghost use Rattle.runs.specs.States.{known, the_task};
ghost use Rattle.runs.specs.Choices.{deadline as the_deadline, contender as the_contender};

use super::lookup::within;
use order::candidate::Candidate;
use runs::answer::{Job, Mode};
use table::table::Table;
use tasks::task::{Level, Task};
use tasks::units::Ticks;

// A task of a table, under its number.
#[derive(Clone, Copy)]
pub(crate) struct Row<'t> {
    pub(crate) table: &'t Table,
    pub(crate) number: u32,
    ghost known: { known (draft_of table.now) number ≡ true },
}

impl Row<'_> {
    pub(crate) fn task(&self) -> Task
        ensures is { result ≡ the_task (draft_of self.now.table.now) self.now.number }
        ensures small { result.period.0 ≤ 100000 }
    {
        self.table.task(self.number).unwrap()
    }

    fn virtual_deadline(&self) -> Ticks
        ensures is { result.0 ≡ virtual_deadline (draft_of self.now.table.now).factor (the_task (draft_of self.now.table.now) self.now.number) }
        ensures small { result.0 ≤ 2 ^ 40 }
    {
        self.table.virtual_deadline(self.number).unwrap()
    }

    // The current deadline of the task's job.
    fn deadline(&self, mode: Mode, job: Job) -> Ticks
        requires { job.arrival.0 ≤ 2 ^ 40 }
        ensures { result.0 ≡ the_deadline mode (draft_of self.now.table.now) self.now.number job }
    {
        let task = self.task();
        let span = if mode == Mode::Low && within(task.criticality, job.run) {
            self.virtual_deadline()
        } else {
            task.period
        };
        Ticks(job.arrival.0 + span.0)
    }

    // The candidate of the task's pending job.
    pub(crate) fn contender(&self, mode: Mode, job: Job) -> Candidate
        requires { job.arrival.0 ≤ 2 ^ 40 }
        ensures { result ≡ the_contender mode (draft_of self.now.table.now) self.now.number job }
    {
        Candidate::new(
            self.deadline(mode, job),
            Level::from(self.task().criticality),
            self.number,
        )
    }
}
