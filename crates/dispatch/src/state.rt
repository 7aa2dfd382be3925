ghost use Rattle.std.specs.Prelude.{◌≡◌, ◌<◌};
ghost use Rattle.table.specs.Verdict.{Draft};
ghost use Rattle.runs.specs.States.{new_state};
ghost use Rattle.dispatch.specs.Cores.{Fine, state_of};
ghost use Rattle.dispatch.specs.Steps.{Writes};

use order::mask::{with_slot, without_slot};
use runs::answer::{Job, Mode};
use tasks::units::Ticks;

// What a dispatcher keeps between calls. Task number k + 1 stands at slot k. Jobs and last arrivals are two lists and not one of pairs: a choice is lent the jobs alone.
#[derive(Drop)]
pub(crate) struct Core {
    // the rule's weights or total were not the table's at the making
    pub(crate) foreign: bool,
    pub(crate) clock: Ticks,
    pub(crate) mode: Mode,
    // bit k for a pending job at slot k; kept beside the jobs, so that a choice costs the pending tasks alone
    pub(crate) pending: u32,
    pub(crate) jobs: [Option<Job>; 32],
    // the last accepted arrival of each task
    pub(crate) last: [Option<Ticks>; 32],
}

impl Core {
    // Nothing is pending, and nothing has arrived.
    pub(crate) fn new(foreign: bool) -> Core
        ensures foreign { result.foreign ≡ foreign }
        ensures state { state_of result ≡ new_state foreign }
        ensures fine { (d : Draft) → Fine d result }
    {
        Core {
            foreign,
            clock: Ticks(0),
            mode: Mode::Low,
            pending: 0,
            jobs: [None; 32],
            last: [None; 32],
        }
    }

    // Writes the job of a slot.
    pub(crate) fn write(&mut self, slot: u32, job: Option<Job>)
        requires { slot < 32 }
        ensures { Writes self.old self.new slot job }
    {
        self.pending = match job {
            Some(_) => with_slot(self.pending, slot),
            None => without_slot(self.pending, slot),
        };
        self.jobs[slot as usize] = job;
    }
}
