// Ticks and shares, tasks, and why a table is refused.
#![tactic(auto)]

pub mod refusal;
pub mod slots;
pub mod task;
pub mod units;
