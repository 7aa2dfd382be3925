ghost use Rattle.std.specs.Prelude.{◌≡◌, ℕ, length};
ghost use Rattle.budget.specs.Slots.{ticks_in};
ghost use Rattle.needs.specs.Noted.{noted};

use tasks::slots::at_number;
use tasks::units::Ticks;

// The need of each task's latest job, in ticks; 0 where none was noted, which no job ever meets, so no `Option` has to be asked. Task number k + 1 stands at slot k.
#[derive(Clone, Copy)]
pub struct Needs {
    pub(crate) slots: [Ticks; 32],
    ghost long: { length slots ≡ 32 },
}

impl Needs {
    // No need is noted.
    pub fn new() -> Needs
        ensures { (i : ℕ) → ticks_in result.slots i ≡ 0 }
    {
        Needs {
            slots: [Ticks(0); 32],
        }
    }

    // The need of a task's latest job.
    pub fn need(&self, task: u32) -> Ticks
        ensures { result.0 ≡ ticks_in self.now.slots task }
    {
        at_number(&self.slots, task).unwrap_or(Ticks(0))
    }

    // Notes the need of a task's job; nothing holds the two as a pair. A number outside 1 to 32 is no task, and nothing is noted.
    pub fn note(&mut self, task: u32, need: Ticks)
        ensures { (i : ℕ) → ticks_in self.new.slots i ≡ noted (ticks_in self.old.slots) task need.0 i }
    {
        if (1..=32).contains(&task) {
            self.slots[task as usize - 1] = need;
        }
    }
}
