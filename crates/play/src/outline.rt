use super::task_list::TaskList;
use tasks::task::Factor;
use tasks::units::Shares;

// What the S line and the task lines said so far. Scale, total and factor stand apart, as in a table.
#[derive(Drop)]
pub(crate) struct Outline {
    pub(crate) scale: Shares,
    pub(crate) total: Shares,
    pub(crate) factor: Factor,
    pub(crate) tasks: TaskList,
}
