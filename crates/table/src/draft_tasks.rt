ghost use Rattle.std.specs.Option.{ForSome};
ghost use Rattle.std.specs.Prelude.{◌≤◌, length};

use tasks::task::{Factor, Task};
use tasks::units::Shares;

// Tasks to test one by one, the scale that they share, and the factor where it is known. Their count, the scale and the factor have passed their own tests.
#[derive(Clone, Copy)]
pub(crate) struct DraftTasks<'a> {
    pub(crate) scale: Shares,
    pub(crate) factor: Option<Factor>,
    pub(crate) tasks: &'a [Task],
    ghost few: { length tasks.now ≤ 32 },
    ghost small: { scale.0 ≤ 1000000 },
    ghost known: { ForSome factor (λ f. 1 ≤ f.q) },
}
