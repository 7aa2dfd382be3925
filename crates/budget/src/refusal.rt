ghost use Rattle.std.specs.Prelude.{◌≡◌};
ghost use Rattle.budget.specs.Refusals.{fixed_number, fixed_task, ceiling_number, ceiling_task};

use tasks::units::{Shares, Ticks};

// A number of a list that is not allowed, and its task.
#[derive(Clone, Copy, PartialEq, Eq, Debug)]
pub struct Excess {
    pub task: u32,
    pub ticks: Ticks,
}

// Why budgets are not a fixed rule of a table, with the values that did not pass.
#[derive(Clone, Copy, PartialEq, Eq, Debug)]
pub enum FixedRefusal {
    // so many budgets for so many tasks
    Count(usize, usize),
    // a low task has a budget
    LowTask(Excess),
    TooLarge(Excess),
    // the weighted sum of the budgets, and the total
    OverTotal(Shares, Shares),
}

impl FixedRefusal {
    // The refusal's number. A method, as each refusal has it: `u8::from` would not say what the byte is, and nothing takes any refusal, as a trait would serve.
    pub fn number(&self) -> u8
        ensures { result ≡ fixed_number self.now }
    {
        match self {
            FixedRefusal::Count(_, _) => 15,
            FixedRefusal::LowTask(_) => 15,
            FixedRefusal::TooLarge(_) => 16,
            FixedRefusal::OverTotal(_, _) => 17,
        }
    }

    // The task that it names, if it names one.
    pub fn task(&self) -> Option<u32>
        ensures { result ≡ fixed_task self.now }
    {
        match self {
            FixedRefusal::LowTask(excess) => Some(excess.task),
            FixedRefusal::TooLarge(excess) => Some(excess.task),
            _ => None,
        }
    }
}

// Why a list is no ceiling for a table's tasks.
#[derive(Clone, Copy, PartialEq, Eq, Debug)]
pub enum CeilingRefusal {
    // so many ceilings for so many tasks
    Count(usize, usize),
    TooLarge(Excess),
}

impl CeilingRefusal {
    // The refusal's number. A method, as each refusal has it: `u8::from` would not say what the byte is, and nothing takes any refusal, as a trait would serve.
    pub fn number(&self) -> u8
        ensures { result ≡ ceiling_number self.now }
    {
        match self {
            CeilingRefusal::Count(_, _) => 18,
            CeilingRefusal::TooLarge(_) => 18,
        }
    }

    // The task that it names, if it names one.
    pub fn task(&self) -> Option<u32>
        ensures { result ≡ ceiling_task self.now }
    {
        match self {
            CeilingRefusal::Count(_, _) => None,
            CeilingRefusal::TooLarge(excess) => Some(excess.task),
        }
    }
}
