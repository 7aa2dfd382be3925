// The lines that a run prints, and the faults that stop a scenario.
#![tactic(auto)]

pub mod decimal;
pub mod fault;
mod line_buffer;
pub mod output;
