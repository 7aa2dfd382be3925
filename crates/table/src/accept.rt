ghost use Rattle.std.specs.Prelude.{◌≡◌, [], ◌∷◌, Ok, Err};
ghost use Rattle.table.specs.Accepted.{Accepted};
ghost use Rattle.table.specs.Drafts.{as_drafted};
ghost use Rattle.table.specs.Firsts.{first_of, refusal};
ghost use Rattle.table.specs.Tables.{draft_of};
ghost use Rattle.table.specs.Verdict.{verdict, low_fault, high_fault};

use super::draft::Draft;
use super::table::Table;
use super::unless::refuse_unless;
use tasks::refusal::TableRefusal;
use tasks::slots::filled;
use tasks::task::{Task, Tests};

fn check_tests(tests: Tests) -> Result<(), TableRefusal>
    ensures { refusal result ≡ first_of (low_fault tests ∷ high_fault tests ∷ []) }
{
    refuse_unless(tests.low.passes(), TableRefusal::LowTest(tests.low))?;
    refuse_unless(tests.high.passes(), TableRefusal::HighTest(tests.high))
}

impl Draft<'_> {
    fn check(&self) -> Result<(), TableRefusal>
        ensures { refusal result ≡ verdict (as_drafted self.now) }
    {
        check_tests(self.tests()?)
    }
}

impl Table {
    // The table of a draft that passes every test, or the first refusal.
    pub fn accept(draft: &Draft<'_>) -> Result<Table, TableRefusal>
        ensures verdict { refusal result ≡ verdict (as_drafted draft.now) }
        ensures parts { elim result [ Ok t ↦ draft_of t ≡ as_drafted draft.now | Err e ↦ Unit {0} ] }
        ensures exact { elim result [ Ok t ↦ Accepted (as_drafted draft.now) | Err e ↦ (Accepted (as_drafted draft.now) → ⊥) ] }
    {
        draft.check()?;
        Ok(Table {
            scale: draft.scale,
            total: draft.total,
            factor: draft.factor,
            count: draft.tasks.len(),
            tasks: filled(draft.tasks, Task::BLANK),
        })
    }
}
