ghost use Rattle.std.specs.Prelude.{◌≡◌};
ghost use Rattle.std.specs.Option.{option_map};
ghost use Rattle.table.specs.Tables.{draft_of};
ghost use Rattle.runs.specs.Choices.{turn as the_turn};
ghost use Rattle.dispatch.specs.Cores.{Offered, masked};
ghost use Rattle.dispatch.specs.Turns.{taken_of, first_taken};

use super::dispatcher::Dispatcher;
use super::lookup::at;
use super::rivals::Rivals;
use super::row::Row;
use super::turn::Taken;
use budget::rule::Rule;
use order::chooser::first;
use order::tie_order::TieOrder;
use runs::answer::Mode;

impl<'o, R: Rule, O: TieOrder> Dispatcher<'o, R, O> {
    // The first of the jobs at the slots of a mask, by the deadlines of a mode.
    pub(crate) fn choose(&self, mode: Mode, mask: u32) -> Option<Taken>
        requires { Offered mask self.now.core.jobs }
        ensures { result ≡ option_map (taken_of (draft_of self.now.table)) (the_turn (O.TieOrder.ahead self.now.order.now) mode (draft_of self.now.table) (masked mask self.now.core.jobs)) }
    {
        let rivals = Rivals {
            table: &self.table,
            jobs: &self.core.jobs,
            mode,
        };
        let slot = first(self.order, &rivals, mask)?;
        let row = Row {
            table: &self.table,
            number: slot + 1,
        };
        Some(Taken {
            number: row.number,
            task: row.task(),
            job: at(&self.core.jobs, slot).unwrap(),
        })
    }

    // The first of the pending jobs, by the deadlines of a mode.
    pub(crate) fn choose_pending(&self, mode: Mode) -> Option<Taken>
        ensures { result ≡ first_taken (draft_of self.now.table) (O.TieOrder.ahead self.now.order.now) mode self.now.core }
    {
        self.choose(mode, self.core.pending)
    }
}
