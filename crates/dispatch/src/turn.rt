use runs::answer::Job;
use tasks::task::Task;

// The task that is first, with its pending job.
#[derive(Clone, Copy)]
pub(crate) struct Taken {
    pub(crate) number: u32,
    pub(crate) task: Task,
    pub(crate) job: Job,
}
