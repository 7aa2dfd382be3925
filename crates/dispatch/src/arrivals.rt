ghost use Rattle.std.specs.Prelude.{◌≡◌, ◌^◌, ◌<◌, true, Ok, Err};
ghost use Rattle.table.specs.Firsts.{refusal};
ghost use Rattle.table.specs.Tables.{draft_of};
ghost use Rattle.runs.specs.States.{known, within as is_within};
ghost use Rattle.runs.specs.Arrivals.{next_arrival, unassured_by, arrival_fault};
ghost use Rattle.dispatch.specs.Cores.{state_of};

use super::dispatcher::Dispatcher;
use super::lookup::{at, within};
use budget::rule::Rule;
use order::tie_order::TieOrder;
use runs::answer::Mode;
use runs::refusal::ArrivalRefusal;
use tasks::task::Criticality;
use tasks::units::Ticks;

// The first clock at which a task may arrive again.
fn next_after(last: Option<Ticks>, period: Ticks) -> Ticks
    requires { next_arrival period.0 last < 2 ^ 64 }
    ensures { result.0 ≡ next_arrival period.0 last }
{
    last.map_or(Ticks(0), |arrival| Ticks(arrival.0 + period.0))
}

fn check_assured(mode: Mode, number: u32, criticality: Criticality) -> Result<(), ArrivalRefusal>
    ensures { refusal result ≡ unassured_by mode number (is_within criticality 0) }
{
    if mode == Mode::High && !within(criticality, Ticks(0)) {
        return Err(ArrivalRefusal::NoAssuredPart(number));
    }
    Ok(())
}

impl<'o, R: Rule, O: TieOrder> Dispatcher<'o, R, O> {
    // The first refusal of an arrival, if there is one.
    pub(crate) fn check_arrival(&self, number: u32) -> Result<(), ArrivalRefusal>
        ensures first { refusal result ≡ arrival_fault (draft_of self.now.table) (state_of self.now.core) number }
        ensures known { elim result [ Ok v ↦ known (draft_of self.now.table) number ≡ true | Err e ↦ Unit {0} ] }
    {
        if self.core.foreign {
            return Err(ArrivalRefusal::ForeignRule);
        }
        let task = self
            .table
            .task(number)
            .ok_or(ArrivalRefusal::NoSuchTask(number))?;
        let slot = number - 1;
        let next = next_after(at(&self.core.last, slot), task.period);
        if next > self.core.clock {
            return Err(ArrivalRefusal::TooEarly(number, next));
        }
        if let Some(job) = at(&self.core.jobs, slot) {
            return Err(ArrivalRefusal::StillPending(number, job));
        }
        check_assured(self.core.mode, number, task.criticality)
    }
}
