use tasks::task::{Factor, Task};
use tasks::units::Shares;

// A table as a caller drafts it: nothing of it has been tested.
#[derive(Clone, Copy, Debug)]
pub struct Draft<'a> {
    pub scale: Shares,
    pub total: Shares,
    pub factor: Factor,
    pub tasks: &'a [Task],
}
