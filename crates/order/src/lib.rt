// Tie orders, and the one function that finds the first candidate.
#![tactic(auto)]

pub mod by_number;
pub mod candidate;
pub mod candidates;
pub mod chooser;
pub mod high_first;
pub mod mask;
pub mod slots;
#[cfg(test)]
mod tests;
pub mod tie_order;
