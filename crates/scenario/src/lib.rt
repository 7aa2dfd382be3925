// Scenario text: its lines one by one.
#![tactic(auto)]

pub mod fields;
pub mod kind;
pub mod laws;
pub mod lines;
pub mod number;
pub mod place;
mod ranges;
pub mod reader;
