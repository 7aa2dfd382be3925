// The board: a scenario text is played, and its transcript is pulled line by line.
#![tactic(auto)]

pub mod board;
mod course;
mod fields;
mod outline;
mod outlining;
mod printing;
pub mod pulling;
mod ruled;
mod ruling;
mod show;
mod showing;
mod stepping;
mod stop;
mod task_list;
mod tick_list;
