use super::outline::Outline;
use super::ruled::Ruled;
use super::show::Show;
use output::output::OutputLine;

// How far a scenario has come.
#[derive(Drop)]
pub(crate) enum Course {
    // before the S line
    Opening,
    // behind it, with the tasks so far
    Table(Outline),
    // the table is accepted and its rule is made; a ceiling may follow
    Rule(Ruled),
    // the dispatcher is at work
    Work(Show),
}

// What a line prints, and the ticks that it lets run.
// Not an enum of nothing, a line and ticks: the board takes the two as they are, as its `held` and its `left`.
#[derive(Clone, Copy)]
pub(crate) struct Printed {
    pub(crate) line: Option<OutputLine>,
    pub(crate) left: u32,
}
