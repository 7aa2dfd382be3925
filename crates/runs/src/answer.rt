use tasks::units::Ticks;

// In low mode every job is served; in high mode a low job has its assured part only.
#[derive(Clone, Copy, PartialEq, Eq, Debug)]
pub enum Mode {
    Low,
    High,
}

// Why a job ended: it was marked done, it had its worst run, or it was a low job that had its assured part in high mode.
#[derive(Clone, Copy, PartialEq, Eq, Debug)]
pub enum Ending {
    Done,
    Limit,
    Short,
}

// A pending job: the clock at its arrival, and the ticks that it has had.
#[derive(Clone, Copy, PartialEq, Eq, Debug)]
pub struct Job {
    pub arrival: Ticks,
    pub run: Ticks,
}

// What one tick did.
#[derive(Clone, Copy, PartialEq, Eq, Debug)]
pub struct Answer {
    // the clock before the tick
    pub clock: Ticks,
    // the task that ran, if the tick was not idle
    pub task: Option<u32>,
    // the mode in which it ran
    pub mode: Mode,
    // whether this tick changed the mode from low to high; the flag and the set are both told, and a tick without a switch drops the empty set
    pub switched: bool,
    // the tasks whose jobs were dropped at the switch: bit i - 1 for task i
    pub dropped: u32,
    // how the job that ran ended, if it did
    pub ending: Option<Ending>,
}
