// Tables of tasks: a table that exists has passed every test.
#![tactic(auto)]

pub mod accept;
mod checks;
pub mod draft;
mod draft_tasks;
pub mod figures;
pub mod readers;
pub mod table;
mod unless;
