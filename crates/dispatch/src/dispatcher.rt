ghost use Rattle.table.specs.Tables.{draft_of};
ghost use Rattle.dispatch.specs.Cores.{Fine};

use super::state::Core;
use budget::rule::Rule;
use order::tie_order::TieOrder;
use table::table::Table;

// A dispatcher over a copy of its table, with a rule of its own and a borrowed order.
// Clauses name its parts: a model could not cite the meaning of a rule that is a type parameter. They say of each call that table, order and policy stay, which is a fact of two values, so no type holds it.
#[derive(Drop)]
pub struct Dispatcher<'o, R: Rule, O: TieOrder> {
    pub(crate) table: Table,
    pub(crate) order: &'o O,
    pub(crate) rule: R,
    pub(crate) core: Core,
    ghost fine: { Fine (draft_of table) core },
}
