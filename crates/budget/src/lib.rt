// Budget rules: may this job have one more tick?
#![tactic(auto)]

pub mod ceiling;
pub mod fixed;
pub mod fixed_rule;
mod lists;
pub mod refusal;
pub mod rule;
pub mod shared;
pub mod shared_rule;
mod tally;
mod tallying;
pub mod weights;
