ghost use Rattle.std.specs.Prelude.{◌≡◌};
ghost use Rattle.tasks.specs.Refusals.{number_of, task_of};

use super::task::{Comparison, Factor, Task};
use super::units::Shares;
use std::error::Error;
use std::fmt;

// Why a table is refused, with the values that did not pass.
#[derive(Clone, Copy, PartialEq, Eq, Debug)]
pub enum TableRefusal {
    Count(usize),
    Scale(Shares),
    Factor(Factor),
    Total(Shares),
    Period(u32, Task),
    VirtualDeadline(u32, Task),
    Service(u32, Task),
    LowTest(Comparison),
    HighTest(Comparison),
}

impl TableRefusal {
    // The refusal's number. A method, as each refusal has it: `u8::from` would not say what the byte is, and nothing takes any refusal, as a trait would serve.
    pub fn number(&self) -> u8
        ensures { result ≡ number_of self.now }
    {
        match self {
            TableRefusal::Count(_) => 1,
            TableRefusal::Scale(_) => 2,
            TableRefusal::Factor(_) => 3,
            TableRefusal::Total(_) => 4,
            TableRefusal::Period(_, _) => 5,
            TableRefusal::VirtualDeadline(_, _) => 6,
            TableRefusal::Service(_, _) => 7,
            TableRefusal::LowTest(_) => 8,
            TableRefusal::HighTest(_) => 9,
        }
    }

    // The task that it names, if it names one.
    pub fn task(&self) -> Option<u32>
        ensures { result ≡ task_of self.now }
    {
        match self {
            TableRefusal::Period(task, _) => Some(*task),
            TableRefusal::VirtualDeadline(task, _) => Some(*task),
            TableRefusal::Service(task, _) => Some(*task),
            _ => None,
        }
    }
}

// The reason in a sentence.
impl fmt::Display for TableRefusal {
    fn fmt<W: fmt::Write>(&self, f: &mut fmt::Formatter<W>) -> fmt::Result {
        match self {
            TableRefusal::Count(count) => {
                write!(f, "There are {count} tasks, and there must be 1 to 32.")
            }
            TableRefusal::Scale(scale) => write!(
                f,
                "The scale is {}, and must be 1 to 1000000 shares.",
                scale
            ),
            TableRefusal::Factor(factor) => write!(
                f,
                "The factor is {}/{}, and must be p/q with q from 1 to 1000 and p from 1 to q.",
                factor.p, factor.q
            ),
            TableRefusal::Total(total) => write!(
                f,
                "The total is {}, and must be 0 to 1000000 shares.",
                total
            ),
            TableRefusal::Period(_, task) => write!(
                f,
                "Its period is {} ticks, and must be 1 to 100000 and divide the scale.",
                task.period
            ),
            TableRefusal::VirtualDeadline(_, task) => write!(
                f,
                "Its virtual deadline, the factor times {} ticks, is not a whole number of ticks.",
                task.period
            ),
            TableRefusal::Service(_, task) => write!(
                f,
                "Its worst is {} ticks, and must be 1 to its period, with an assured part of at most that.",
                task.worst
            ),
            TableRefusal::LowTest(test) => write!(
                f,
                "It fails the low test: the tasks ask for {} and the processor has {}.",
                test.demand, test.supply
            ),
            TableRefusal::HighTest(test) => write!(
                f,
                "It fails the high test: the tasks ask for {} and the processor has {}.",
                test.demand, test.supply
            ),
        }
    }
}

impl Error for TableRefusal {}
