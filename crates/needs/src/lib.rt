// The needs of jobs, turned into marks: a job is done when it has run for its need.
#![tactic(auto)]

pub mod marks;
pub mod needs;
