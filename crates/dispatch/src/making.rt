ghost use Rattle.std.specs.Prelude.{◌≡◌, []};
ghost use Rattle.table.specs.Tables.{draft_of};
ghost use Rattle.table.specs.Firsts.{first_below};
ghost use Rattle.budget.specs.Meaning.{Rested};
ghost use Rattle.runs.specs.States.{new_state, foreign_rule, foreign_weight, is_none, Judged};
ghost use Rattle.runs.specs.Produced.{Kind, lawful, Keeps, Produced};
ghost use Rattle.dispatch.specs.Cores.{state_of};

use super::dispatcher::Dispatcher;
use super::state::Core;
use budget::rule::Rule;
use budget::weights::rule_weight;
use order::tie_order::TieOrder;
use table::table::Table;

// Whether the rule has the table's weight for each number from 1 to 32.
fn weights_agree<R: Rule>(table: &Table, rule: &R) -> bool
    ensures { result ≡ is_none (first_below 32 (foreign_weight (draft_of table.now) (R.Rule.meaning rule.now))) }
{
    (0..32).all(|slot| rule.weight(slot + 1) == rule_weight(table, slot + 1))
}

// Whether the rule's weights or total are not the table's.
fn is_foreign<R: Rule>(table: &Table, rule: &R) -> bool
    ensures { result ≡ foreign_rule (draft_of table.now) (R.Rule.meaning rule.now) }
{
    !weights_agree(table, rule) || rule.total() != table.total()
}

impl<'o, R: Rule, O: TieOrder> Dispatcher<'o, R, O> {
    // A new dispatcher, with its rule set to rest. Where the rule is not the table's, every arrival and tick is refused for ever.
    pub fn new(table: &Table, mut rule: R, order: &'o O) -> Self
        ensures fixed { (result.table ≡ table.now) × (result.order.now ≡ order.now) }
        ensures rested { Rested (R.Rule.meaning rule) (R.Rule.meaning result.rule) }
        ensures policy { R.Rule.policy result.rule ≡ R.Rule.policy rule }
        ensures judged { Judged result.core.foreign (draft_of table.now) (R.Rule.meaning rule) }
        ensures state { state_of result.core ≡ new_state result.core.foreign }
        ensures log { Produced lawful (draft_of table.now) (O.TieOrder.ahead order.now) [] (R.Rule.meaning result.rule) (state_of result.core) }
        ensures kinds { (kind : Kind) → Keeps kind (R.Rule.meaning result.rule) → Produced kind (draft_of table.now) (O.TieOrder.ahead order.now) [] (R.Rule.meaning result.rule) (state_of result.core) }
    {
        rule.rest();
        let foreign = is_foreign(table, &rule);
        Dispatcher {
            table: *table,
            order,
            rule,
            core: Core::new(foreign),
        }
    }
}
