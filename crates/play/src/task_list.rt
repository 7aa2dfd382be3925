use std::marker::Model;
use tasks::task::Task;

// The tasks so far. With 33 tasks the table is refused whatever they are, so no more are kept.
// Not one generic struct with TickList: calls would owe the size of an array of a type parameter. Nor a vector of another crate, since the repository stands on std alone.
#[derive(Drop)]
pub(crate) struct TaskList {
    slots: [Task; 33],
    count: usize,
}

impl Model for TaskList {
    ghost use Rattle.std.specs.Prelude.{◌≡◌, ◌≤◌, List, length, take};
    ghost use Rattle.tasks.specs.declared.task.Task.{Task};

    ghost Value = { List Task };

    ghost view = { λ t. take t.count t.slots };

    ghost invariant = { λ t. (t.count ≤ 33) × (length t.slots ≡ 33) };
}

impl TaskList {
    ghost use Rattle.std.specs.Prelude.{◌≡◌, ◌≤◌, [], length};
    ghost use Rattle.transcript.specs.Steps.{with_task};

    pub(crate) fn new() -> TaskList
        ensures { result ≡ [] }
    {
        TaskList {
            slots: [Task::BLANK; 33],
            count: 0,
        }
    }

    pub(crate) fn push(&mut self, task: Task)
        ensures { self.new ≡ with_task self.old task }
    {
        if self.count < 33 {
            self.slots[self.count] = task;
            self.count += 1;
        }
    }

    pub(crate) fn as_slice(&self) -> &[Task]
        ensures tasks { result.now ≡ self.now }
        ensures few { length self.now ≤ 33 }
    {
        &self.slots[..self.count]
    }
}
