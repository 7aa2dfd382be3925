ghost use Rattle.std.specs.Prelude.{◌≡◌, ◌^◌, ◌<◌};
ghost use Rattle.transcript.specs.Shows.{switch_line, tick_line};
ghost use Rattle.transcript.specs.Steps.{line_of_task, table_fault, rule_fault};
ghost use Rattle.tasks.specs.Refusals.{task_of};

use output::fault::{Fault, Layer};
use output::output::OutputLine;
use runs::answer::Answer;
use tasks::refusal::TableRefusal;

// The line before a tick that switches.
pub(crate) fn switch_line(answer: Answer) -> Option<OutputLine>
    ensures { result ≡ switch_line answer }
{
    answer.switched.then_some(OutputLine::Switched {
        clock: answer.clock,
        dropped: answer.dropped,
    })
}

// The line of a tick.
pub(crate) fn tick_line(answer: Answer) -> OutputLine
    ensures { result ≡ tick_line answer }
{
    OutputLine::Ticked {
        clock: answer.clock,
        task: answer.task,
        mode: answer.mode,
        ending: answer.ending,
    }
}

// The fault of a refused table: on the task's own line, or on the S line.
pub(crate) fn table_fault(refusal: &TableRefusal) -> Fault
    requires { line_of_task (task_of refusal.now) < 2 ^ 32 }
    ensures { result ≡ table_fault refusal.now }
{
    Fault {
        line: refusal.task().map_or(1, |task| task + 1),
        layer: Layer::Table,
        number: refusal.number(),
    }
}

// The fault of a refused rule, on its line.
pub(crate) fn rule_fault(line: u32, number: u8) -> Fault
    ensures { result ≡ rule_fault line number }
{
    Fault {
        line,
        layer: Layer::Rule,
        number,
    }
}
