// Runs of a dispatcher: the calls and their answers, what one arrival and one tick do, and the two bounds that hold of every run.
#![tactic(auto)]

pub mod answer;
pub mod bounds;
pub mod call;
pub mod entry;
pub mod examples;
pub mod refusal;
