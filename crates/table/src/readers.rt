ghost use Rattle.std.specs.Prelude.{◌≡◌, ℕ, ◌+◌, ◌-◌, ◌<◌, ◌≤◌};
ghost use Rattle.table.specs.Tables.{draft_of};
ghost use Rattle.table.specs.Readers.{task_at, weight_at, deadline_at, level_at};

use super::table::Table;
use tasks::slots::at_number;
use tasks::task::{Factor, Level, Task};
use tasks::units::{Shares, Ticks};

impl Table {
    // How many tasks there are.
    pub fn count(&self) -> u32
        ensures { result ≡ (draft_of self.now).count }
    {
        self.count as u32
    }

    pub fn scale(&self) -> Shares
        ensures { result ≡ (draft_of self.now).scale }
    {
        self.scale
    }

    pub fn total(&self) -> Shares
        ensures { result ≡ (draft_of self.now).total }
    {
        self.total
    }

    pub fn factor(&self) -> Factor
        ensures { result ≡ (draft_of self.now).factor }
    {
        self.factor
    }

    // The task of a number, if there is one.
    pub fn task(&self, number: u32) -> Option<Task>
        ensures { result ≡ task_at (draft_of self.now) number }
    {
        at_number(&self.tasks[..self.count], number)
    }

    // The weight of the task of a number.
    pub fn weight(&self, number: u32) -> Option<Shares>
        ensures { result ≡ weight_at (draft_of self.now) number }
    {
        let task = self.task(number)?;
        Some(Shares(self.scale.0 / task.period.0))
    }

    // The virtual deadline of the task of a number, in ticks after an arrival.
    pub fn virtual_deadline(&self, number: u32) -> Option<Ticks>
        ensures { result ≡ deadline_at (draft_of self.now) number }
    {
        let task = self.task(number)?;
        let Factor { p, q } = self.factor;
        Some(Ticks(p as u64 * task.period.0 / q as u64))
    }

    // Whether the task of a number is high or low, or none where it is absent.
    pub fn level(&self, number: u32) -> Option<Level>
        ensures { result ≡ level_at (draft_of self.now) number }
    {
        self.task(number).map(|task| Level::from(task.criticality))
    }
}
