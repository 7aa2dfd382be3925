ghost use Rattle.std.specs.Prelude.{◌≡◌};
ghost use Rattle.runs.specs.Logs.{spans, switches, calm};
ghost use Rattle.runs.specs.Numbers.{call_of, unanswered};

use crate::answer::Answer;
use crate::call::{Call, Mark};
use crate::refusal::{ArrivalRefusal, TickRefusal};
use tasks::units::Ticks;

// A call with a place for its answer.
#[derive(Clone, Copy, PartialEq, Eq, Debug)]
pub enum Entry {
    Arrive(u32, Option<Result<(), ArrivalRefusal>>),
    Tick(Mark, Option<Result<Answer, TickRefusal>>),
}

// The call of an entry, without its answer.
impl From<&Entry> for Call {
    ghost from_gives = { λ entry call. call ≡ call_of entry.now };

    fn from(entry: &Entry) -> Call {
        match entry {
            Entry::Arrive(task, _) => Call::Arrive(*task),
            Entry::Tick(mark, _) => Call::Tick(*mark),
        }
    }
}

// A call that is still unanswered.
impl From<Call> for Entry {
    ghost from_gives = { λ call entry. entry ≡ unanswered call };

    fn from(call: Call) -> Entry {
        match call {
            Call::Arrive(task) => Entry::Arrive(task, None),
            Call::Tick(mark) => Entry::Tick(mark, None),
        }
    }
}

impl Entry {
    // How many accepted ticks it stands for.
    pub fn ticks(&self) -> Ticks
        ensures { result.0 ≡ spans self.now }
    {
        Ticks(u64::from(matches!(self, Entry::Tick(_, Some(Ok(_))))))
    }

    // Whether its answer says that the tick switched.
    pub fn switched(&self) -> bool
        ensures { result ≡ switches self.now }
    {
        matches!(self, Entry::Tick(_, Some(Ok(answer))) if answer.switched)
    }

    // How many of its ticks come before a switch in it.
    pub fn calm_ticks(&self) -> Ticks
        ensures { result.0 ≡ calm self.now }
    {
        if self.switched() {
            Ticks(0)
        } else {
            self.ticks()
        }
    }
}
