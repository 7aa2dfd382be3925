// A string of calls on a new dispatcher, under one rule or under two.
#![tactic(auto)]

pub(crate) mod answering;
pub mod compare;
pub(crate) mod count;
pub(crate) mod playing;
pub mod refusal;
pub mod replay;
