// What a tick is told of the job that it runs: whether that job is done with it.
#[derive(Clone, Copy, PartialEq, Eq, Debug)]
pub enum Mark {
    Done,
    NotDone,
}

// A call that can alter a dispatcher: a job of a task arrives, or one tick passes.
#[derive(Clone, Copy, PartialEq, Eq, Debug)]
pub enum Call {
    Arrive(u32),
    Tick(Mark),
}
