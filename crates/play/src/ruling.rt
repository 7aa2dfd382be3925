ghost use Rattle.std.specs.Prelude.{◌≡◌, Ok, Err};
ghost use Rattle.table.specs.Firsts.{refusal};
ghost use Rattle.table.specs.Tables.{draft_of};
ghost use Rattle.budget.specs.Making.{fixed_fault, ceiling_fault};
ghost use Rattle.budget.specs.Rules.{policy_under};
ghost use Rattle.budget.specs.Slots.{ticks_in};
ghost use Rattle.any_rule.specs.Any.{policy_of_base};
ghost use Rattle.transcript.specs.Policies.{shared_policy, fixed_policy};
ghost use Rattle.transcript.specs.Shows.{new_show};
ghost use Rattle.play.specs.Shown.{show_of};

use super::ruled::Ruled;
use super::show::Show;
use any_rule::BaseRule;
use budget::fixed::Fixed;
use budget::refusal::{CeilingRefusal, FixedRefusal};
use budget::shared::Shared;
use table::table::Table;
use tasks::units::Ticks;

impl Ruled {
    // Under the shared rule of the table.
    pub(crate) fn shared(table: Table) -> Ruled
        ensures table { result.table ≡ table }
        ensures policy { policy_of_base result.rule ≡ shared_policy (draft_of table) }
    {
        Ruled {
            table,
            rule: BaseRule::from(Shared::new(&table)),
        }
    }

    // Under fixed budgets.
    pub(crate) fn fixed(table: Table, budgets: &[Ticks]) -> Result<Ruled, FixedRefusal>
        ensures refused { refusal result ≡ fixed_fault (draft_of table) budgets.now }
        ensures made { elim result [ Ok u ↦ (u.table ≡ table) × (policy_of_base u.rule ≡ fixed_policy (draft_of table) budgets.now) | Err e ↦ Unit {0} ] }
    {
        let rule = Fixed::new(&table, budgets)?;
        Ok(Ruled {
            table,
            rule: BaseRule::from(rule),
        })
    }

    // A new dispatcher.
    pub(crate) fn start(&self) -> Show
        ensures { show_of result ≡ new_show (draft_of self.now.table) (policy_of_base self.now.rule) }
    {
        Show::new(&self.table, self.rule.plain())
    }

    // A new dispatcher whose rule is under a ceiling.
    pub(crate) fn start_under(&self, ceilings: &[Ticks]) -> Result<Show, CeilingRefusal>
        ensures refused { refusal result ≡ ceiling_fault (draft_of self.now.table) ceilings.now }
        ensures made { elim result [ Ok w ↦ show_of w ≡ new_show (draft_of self.now.table) (policy_under (policy_of_base self.now.rule) (ticks_in ceilings.now)) | Err e ↦ Unit {0} ] }
    {
        let rule = self.rule.under(&self.table, ceilings)?;
        Ok(Show::new(&self.table, rule))
    }
}
