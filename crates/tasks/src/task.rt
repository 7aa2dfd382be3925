ghost use Rattle.std.specs.Prelude.{◌≡◌};
ghost use Rattle.tasks.specs.Comparisons.{passes};
ghost use Rattle.tasks.specs.Levels.{level_of, high_task, low_task};
ghost use Rattle.tasks.specs.Parts.{low_assured, low_rest, high_worst};

use super::units::{Shares, Ticks};

// What a task is worth when time runs short: a low one keeps only its assured part of each job in high mode.
#[derive(Clone, Copy, PartialEq, Eq, Debug)]
pub enum Criticality {
    High,
    Low { assured: Ticks },
}

// A task's criticality without its assured part. A high one goes before a low one.
#[derive(Clone, Copy, PartialEq, Eq, PartialOrd, Ord, Debug)]
pub enum Level {
    High,
    Low,
}

impl From<Criticality> for Level {
    ghost from_gives = { λ criticality level. level ≡ level_of criticality };

    fn from(criticality: Criticality) -> Level {
        match criticality {
            Criticality::High => Level::High,
            Criticality::Low { .. } => Level::Low,
        }
    }
}

// One job arrives at most every `period` and runs at most `worst`.
#[derive(Clone, Copy, PartialEq, Eq, Debug)]
pub struct Task {
    pub period: Ticks,
    pub worst: Ticks,
    pub criticality: Criticality,
}

impl Task {
    // What stands in a slot that holds no task.
    pub const BLANK: Task = Task {
        period: Ticks(0),
        worst: Ticks(0),
        criticality: Criticality::High,
    };

    // A high task.
    pub fn high(period: Ticks, worst: Ticks) -> Task
        ensures { result ≡ high_task period worst }
    {
        Task {
            period,
            worst,
            criticality: Criticality::High,
        }
    }

    // A low task, with the part of each job that it keeps in high mode.
    pub fn low(period: Ticks, worst: Ticks, assured: Ticks) -> Task
        ensures { result ≡ low_task period worst assured }
    {
        Task {
            period,
            worst,
            criticality: Criticality::Low { assured },
        }
    }

    // The assured part of a low task, and 0 of a high one.
    pub fn low_assured(&self) -> Ticks
        ensures { result.0 ≡ low_assured self.now }
    {
        match self.criticality {
            Criticality::High => Ticks(0),
            Criticality::Low { assured } => assured,
        }
    }

    // What a low task may need beyond its assured part, and 0 of a high one.
    pub fn low_rest(&self) -> Ticks
        ensures { result.0 ≡ low_rest self.now }
    {
        match self.criticality {
            Criticality::High => Ticks(0),
            Criticality::Low { assured } => Ticks(self.worst.0.saturating_sub(assured.0)),
        }
    }

    // The worst of a high task, and 0 of a low one.
    pub fn high_worst(&self) -> Ticks
        ensures { result.0 ≡ high_worst self.now }
    {
        match self.criticality {
            Criticality::High => self.worst,
            Criticality::Low { .. } => Ticks(0),
        }
    }
}

// Virtual deadlines are p/q of the period.
#[derive(Clone, Copy, PartialEq, Eq, Debug)]
pub struct Factor {
    pub p: u32,
    pub q: u32,
}

// A test of whole numbers: it passes where the demand is at most the supply.
#[derive(Clone, Copy, PartialEq, Eq, Debug)]
pub struct Comparison {
    pub demand: Shares,
    pub supply: Shares,
}

impl Comparison {
    pub fn passes(&self) -> bool
        ensures { result ≡ passes self.now }
    {
        self.demand <= self.supply
    }
}

// The two tests of a table.
#[derive(Clone, Copy, PartialEq, Eq, Debug)]
pub struct Tests {
    pub low: Comparison,
    pub high: Comparison,
}

// The weighted sums of a table: G, S and K.
#[derive(Clone, Copy, PartialEq, Eq, Debug)]
pub struct Figures {
    // G: the assured parts of low tasks
    pub assured: Shares,
    // S: what low tasks may need beyond their assured parts
    pub optional: Shares,
    // K: the worsts of high tasks
    pub high: Shares,
}
