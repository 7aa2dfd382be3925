ghost use Rattle.std.specs.Prelude.{◌≡◌, [], Ok, Err};
ghost use Rattle.table.specs.Firsts.{refusal};
ghost use Rattle.table.specs.Tables.{draft_of};
ghost use Rattle.table.specs.Verdict.{verdict};
ghost use Rattle.transcript.specs.Steps.{with_task};
ghost use Rattle.play.specs.Stops.{BlamesNear};
ghost use Rattle.play.specs.Views.{draft_in};

use super::outline::Outline;
use super::task_list::TaskList;
use table::draft::Draft;
use table::table::Table;
use tasks::refusal::TableRefusal;
use tasks::task::{Factor, Task};
use tasks::units::Shares;

impl Outline {
    // No task yet.
    pub(crate) fn new(scale: Shares, total: Shares, factor: Factor) -> Outline
        ensures { (result.scale ≡ scale) × (result.total ≡ total) × (result.factor ≡ factor) × (result.tasks ≡ []) }
    {
        Outline {
            scale,
            total,
            factor,
            tasks: TaskList::new(),
        }
    }

    // One task more.
    pub(crate) fn push(&mut self, task: Task)
        ensures { self.new ≡ record self.old { tasks = with_task self.old.tasks task } }
    {
        self.tasks.push(task);
    }

    // The table, if it is accepted.
    pub(crate) fn accept(&self) -> Result<Table, TableRefusal>
        ensures verdict { refusal result ≡ verdict (draft_in self.now) }
        ensures parts { elim result [ Ok t ↦ draft_of t ≡ draft_in self.now | Err e ↦ Unit {0} ] }
        ensures near { BlamesNear (refusal result) }
    {
        Table::accept(&Draft {
            scale: self.scale,
            total: self.total,
            factor: self.factor,
            tasks: self.tasks.as_slice(),
        })
    }
}
