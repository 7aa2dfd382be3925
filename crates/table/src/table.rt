ghost use Rattle.std.specs.Prelude.{◌≡◌, ℕ, ◌≤◌, false, is_some};
ghost use Rattle.table.specs.Verdict.{drafted, verdict};

use tasks::task::{Factor, Task};
use tasks::units::Shares;

// A table that exists has passed every test. Its memory is fixed: 32 slots beside the count of tasks, and blank slots past the last task. Scale, total and factor stand apart, as its readers give them.
#[derive(Clone, Copy)]
pub struct Table {
    pub(crate) scale: Shares,
    pub(crate) total: Shares,
    pub(crate) factor: Factor,
    pub(crate) count: usize,
    pub(crate) tasks: [Task; 32],
    ghost accepted: { is_some (verdict (drafted scale total factor count tasks)) ≡ false },
}
