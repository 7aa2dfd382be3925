ghost use Rattle.std.specs.Prelude.{◌≡◌, ℕ, ◌+◌, ◌*◌, ◌<◌, ◌≤◌, true, false, length, Some, None};
ghost use Rattle.table.specs.Firsts.{refusal};
ghost use Rattle.table.specs.Tasks.{slot};
ghost use Rattle.table.specs.Verdict.{count_fault, scale_fault, factor_fault, total_fault, period_fault, deadline_fault, service_fault, task_fault, tasks_fault};

use super::draft_tasks::DraftTasks;
use super::unless::refuse_unless;
use tasks::refusal::TableRefusal;
use tasks::task::{Factor, Task};
use tasks::units::{Shares, Ticks};

pub(crate) fn check_count(count: usize) -> Result<(), TableRefusal>
    ensures { refusal result ≡ count_fault count }
{
    refuse_unless((1..=32).contains(&count), TableRefusal::Count(count))
}

pub(crate) fn check_scale(scale: Shares) -> Result<(), TableRefusal>
    ensures { refusal result ≡ scale_fault scale }
{
    refuse_unless(
        (Shares(1)..=Shares(1_000_000)).contains(&scale),
        TableRefusal::Scale(scale),
    )
}

pub(crate) fn check_factor(factor: Factor) -> Result<(), TableRefusal>
    ensures { refusal result ≡ factor_fault factor }
{
    refuse_unless(
        (1..=1_000).contains(&factor.q) && (1..=factor.q).contains(&factor.p),
        TableRefusal::Factor(factor),
    )
}

pub(crate) fn check_total(total: Shares) -> Result<(), TableRefusal>
    ensures { refusal result ≡ total_fault total }
{
    refuse_unless(total <= Shares(1_000_000), TableRefusal::Total(total))
}

// A drafted task, under its number.
#[derive(Clone, Copy)]
struct Entry {
    number: u32,
    task: Task,
}

fn check_service(entry: Entry) -> Result<(), TableRefusal>
    ensures { refusal result ≡ service_fault entry.number entry.task }
{
    let Entry { number, task } = entry;
    refuse_unless(
        (Ticks(1)..=task.period).contains(&task.worst) && task.low_assured() <= task.worst,
        TableRefusal::Service(number, task),
    )
}

impl DraftTasks<'_> {
    fn check_period(&self, entry: Entry) -> Result<(), TableRefusal>
        ensures { refusal result ≡ period_fault self.now.scale entry.number entry.task }
    {
        let Entry { number, task } = entry;
        refuse_unless(
            (Ticks(1)..=Ticks(100_000)).contains(&task.period) && self.scale.0 % task.period.0 == 0,
            TableRefusal::Period(number, task),
        )
    }

    fn check_deadline(&self, entry: Entry) -> Result<(), TableRefusal>
        ensures { refusal result ≡ deadline_fault self.now.factor entry.number entry.task }
    {
        let Entry { number, task } = entry;
        let whole = self.factor.is_none_or(|f| u128::from(f.p) * u128::from(task.period.0)
            % u128::from(f.q)
            == 0);
        refuse_unless(whole, TableRefusal::VirtualDeadline(number, task))
    }

    fn check_task(&self, entry: Entry) -> Result<(), TableRefusal>
        ensures { refusal result ≡ task_fault self.now.scale self.now.factor entry.number entry.task }
    {
        self.check_period(entry)?;
        self.check_deadline(entry)?;
        check_service(entry)
    }

    // The tests of each task; that of the virtual deadline where the factor is known.
    pub(crate) fn check(&self) -> Result<(), TableRefusal>
        ensures { refusal result ≡ tasks_fault self.now.scale self.now.factor (length self.now.tasks.now) (slot self.now.tasks.now) }
    {
        for (i, task) in self.tasks.iter().enumerate() {
            self.check_task(Entry {
                number: i as u32 + 1,
                task: *task,
            })?;
        }
        Ok(())
    }
}
