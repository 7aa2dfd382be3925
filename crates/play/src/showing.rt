ghost use Rattle.std.specs.Prelude.{◌≡◌, ℕ};
ghost use Rattle.table.specs.Tables.{draft_of};
ghost use Rattle.budget.specs.Weights.{rule_weight};
ghost use Rattle.any_rule.specs.Any.{meaning_of_any, policy_of_any};
ghost use Rattle.transcript.specs.Shows.{new_show, arriving, after_arriving, arrival_line, ticking, after_ticking};
ghost use Rattle.play.specs.Shown.{show_of};

use super::show::Show;
use any_rule::AnyRule;
use dispatch::dispatcher::Dispatcher;
use needs::needs::Needs;
use order::by_number::ByNumber;
use output::output::OutputLine;
use runs::answer::Answer;
use runs::refusal::TickRefusal;
use table::table::Table;
use tasks::units::Ticks;

impl Show {
    // A new dispatcher over a table and a rule of its own.
    pub(crate) fn new(table: &Table, rule: AnyRule) -> Show
        requires weights { (i : ℕ) → (meaning_of_any rule).weight i ≡ rule_weight (draft_of table.now) i }
        requires total { (meaning_of_any rule).total ≡ (draft_of table.now).total.0 }
        ensures { show_of result ≡ new_show (draft_of table.now) (policy_of_any rule) }
    {
        Show {
            dispatcher: Dispatcher::new(table, rule, &ByNumber),
            needs: Needs::new(),
        }
    }

    // An arrival, whose need is noted if it is accepted, and the line that it prints.
    pub(crate) fn arrive(&mut self, task: u32, need: Ticks) -> OutputLine
        ensures line { result ≡ arrival_line (show_of self.old).state.clock task (arriving (show_of self.old) task) }
        ensures show { show_of self.new ≡ after_arriving (show_of self.old) task need.0 }
    {
        let clock = self.dispatcher.clock();
        match self.dispatcher.arrive(task) {
            Ok(()) => {
                self.needs.note(task, need);
                OutputLine::Arrived { clock, task }
            }
            Err(refusal) => OutputLine::Refused {
                clock,
                number: refusal.number(),
            },
        }
    }

    // A tick, marked by the needs.
    pub(crate) fn tick(&mut self) -> Result<Answer, TickRefusal>
        ensures answer { result ≡ ticking (show_of self.old) }
        ensures show { show_of self.new ≡ after_ticking (show_of self.old) }
    {
        let mark = self.needs.mark(&self.dispatcher);
        self.dispatcher.tick(mark)
    }
}
