ghost use Rattle.std.specs.Prelude.{◌≡◌, ℕ, ◌+◌, ◌*◌, ◌<◌, ◌≤◌, length, Some, None, Ok, Err};
ghost use Rattle.std.specs.Fn.{FnReturnsAt};
ghost use Rattle.table.specs.Drafts.{as_drafted};
ghost use Rattle.table.specs.Tasks.{slot, weight, low_assured, weighted};
ghost use Rattle.table.specs.Verdict.{tasks_fault, figures_of, figures_fault, shape_fault, tests_by, tests_of};

use super::checks::{check_count, check_factor, check_scale, check_total};
use super::draft::Draft;
use super::draft_tasks::DraftTasks;
use tasks::refusal::TableRefusal;
use tasks::task::{Comparison, Figures, Task, Tests};
use tasks::units::{Shares, Ticks};

// The task's weight times a part of it.
fn share_of(scale: Shares, task: &Task, part: Ticks) -> Shares
    requires { (1 ≤ task.now.period.0) × (part.0 ≤ task.now.period.0) }
    ensures is { result.0 ≡ weight scale task.now * part.0 }
    ensures small { result.0 ≤ scale.0 }
{
    Shares(scale.0 / task.period.0 * part.0)
}

impl DraftTasks<'_> {
    // The sum of weight times part over the tasks: a loop with an index, as every sum over a table's tasks here.
    fn weighted_sum<F: Fn(&Task) -> Ticks>(&self, part: F) -> Shares
        ghost part_of: { Task → ℕ }
        requires passed { tasks_fault self.now.scale self.now.factor (length self.now.tasks.now) (slot self.now.tasks.now) ≡ None }
        requires callable { F.IsAlwaysCallable part }
        requires gives { (t : Task) (r : Ticks) → FnReturnsAt F.Fn part t r → r.0 ≡ part_of t }
        requires most { (t : Task) → low_assured t ≤ t.worst.0 → part_of t ≤ t.worst.0 }
        ensures is { result.0 ≡ weighted self.now.scale (length self.now.tasks.now) (slot self.now.tasks.now) part_of }
        ensures below { result.0 ≤ 32 * 1000000 }
    {
        let mut sum = 0;
        for i in 0..self.tasks.len() {
            let task = &self.tasks[i];
            sum += share_of(self.scale, task, part(task)).0;
        }
        Shares(sum)
    }

    fn figures(&self) -> Figures
        requires { tasks_fault self.now.scale self.now.factor (length self.now.tasks.now) (slot self.now.tasks.now) ≡ None }
        ensures is { result ≡ figures_of self.now.scale (length self.now.tasks.now) (slot self.now.tasks.now) }
        ensures below { (result.assured.0 ≤ 32 * 1000000) × (result.optional.0 ≤ 32 * 1000000) × (result.high.0 ≤ 32 * 1000000) }
    {
        Figures {
            assured: self.weighted_sum(Task::low_assured),
            optional: self.weighted_sum(Task::low_rest),
            high: self.weighted_sum(Task::high_worst),
        }
    }
}

// G, S and K of tasks that pass 1, 2, 5 and 7.
pub fn figures(scale: Shares, tasks: &[Task]) -> Result<Figures, TableRefusal>
    ensures { elim result [ Ok f ↦ (figures_fault scale (length tasks.now) (slot tasks.now) ≡ None) × (f ≡ figures_of scale (length tasks.now) (slot tasks.now)) | Err e ↦ figures_fault scale (length tasks.now) (slot tasks.now) ≡ Some e ] }
{
    check_count(tasks.len())?;
    check_scale(scale)?;
    let draft_tasks = DraftTasks {
        scale,
        factor: None,
        tasks,
    };
    draft_tasks.check()?;
    Ok(draft_tasks.figures())
}

impl Draft<'_> {
    fn tests_by(&self, figures: Figures) -> Tests
        requires small { (self.now.scale.0 ≤ 1000000) × (self.now.total.0 ≤ 1000000) × (self.now.factor.q ≤ 1000) × (self.now.factor.p ≤ 1000) }
        requires below { (figures.assured.0 ≤ 32 * 1000000) × (figures.optional.0 ≤ 32 * 1000000) × (figures.high.0 ≤ 32 * 1000000) }
        ensures { result ≡ tests_by self.now.scale self.now.total self.now.factor figures }
    {
        let p = u64::from(self.factor.p);
        let q = u64::from(self.factor.q);
        Tests {
            low: Comparison {
                demand: Shares(q * self.total.0 + q * figures.assured.0 + p * figures.optional.0),
                supply: Shares(p * self.scale.0),
            },
            high: Comparison {
                demand: Shares(p * figures.optional.0 + q * (figures.high.0 + figures.assured.0)),
                supply: Shares(q * self.scale.0),
            },
        }
    }

    // Both tests of a draft that passes 1 to 7.
    pub fn tests(&self) -> Result<Tests, TableRefusal>
        ensures { elim result [ Ok t ↦ (shape_fault (as_drafted self.now) ≡ None) × (t ≡ tests_of (as_drafted self.now)) | Err e ↦ shape_fault (as_drafted self.now) ≡ Some e ] }
    {
        check_count(self.tasks.len())?;
        check_scale(self.scale)?;
        check_factor(self.factor)?;
        check_total(self.total)?;
        let draft_tasks = DraftTasks {
            scale: self.scale,
            factor: Some(self.factor),
            tasks: self.tasks,
        };
        draft_tasks.check()?;
        Ok(self.tests_by(draft_tasks.figures()))
    }
}
