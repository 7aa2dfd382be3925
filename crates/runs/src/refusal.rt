ghost use Rattle.std.specs.Prelude.{◌≡◌};
ghost use Rattle.runs.specs.Numbers.{arrival_number, tick_number};

use crate::answer::Job;
use tasks::units::Ticks;

// Why an arrival is refused, with the values that did not pass.
#[derive(Clone, Copy, PartialEq, Eq, Debug)]
pub enum ArrivalRefusal {
    // the rule's weights or total were not the table's when the dispatcher was made
    ForeignRule,
    // the table has no task of this number
    NoSuchTask(u32),
    // the task, and the first clock at which it may arrive again
    TooEarly(u32, Ticks),
    // the task, and its job that is still pending
    StillPending(u32, Job),
    // in high mode: a low task with no assured part
    NoAssuredPart(u32),
}

impl ArrivalRefusal {
    // The refusal's number. A method, as each refusal has it: `u8::from` would not say what the byte is, and nothing takes any refusal, as a trait would serve.
    pub fn number(&self) -> u8
        ensures { result ≡ arrival_number self.now }
    {
        match self {
            ArrivalRefusal::ForeignRule => 19,
            ArrivalRefusal::NoSuchTask(_) => 10,
            ArrivalRefusal::TooEarly(_, _) => 11,
            ArrivalRefusal::StillPending(_, _) => 12,
            ArrivalRefusal::NoAssuredPart(_) => 13,
        }
    }
}

// Why a tick is refused.
#[derive(Clone, Copy, PartialEq, Eq, Debug)]
pub enum TickRefusal {
    // the rule's weights or total were not the table's when the dispatcher was made
    ForeignRule,
    // the clock is at its end
    ClockEnd(Ticks),
}

impl TickRefusal {
    // The refusal's number. A method, as each refusal has it: `u8::from` would not say what the byte is, and nothing takes any refusal, as a trait would serve.
    pub fn number(&self) -> u8
        ensures { result ≡ tick_number self.now }
    {
        match self {
            TickRefusal::ForeignRule => 19,
            TickRefusal::ClockEnd(_) => 14,
        }
    }
}
