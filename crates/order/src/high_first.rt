ghost use Rattle.order.specs.Ties.{high_first};
ghost use Rattle.std.proofs.Common.{rules};
ghost use Rattle.order.specs.Keys.{smaller_or_transitive};

use super::candidate::Candidate;
use super::tie_order::TieOrder;

// By deadline, then high before low, then number.
#[derive(Clone, Copy)]
pub struct HighFirst;

impl TieOrder for HighFirst {
    ghost ahead = { λ _. high_first };

    ghost one_way = { Prim.search rules };

    ghost transitive = { Prim.search (rules, smaller_or_transitive) };

    ghost refines_deadlines = { Prim.search rules };

    fn goes_ahead(&self, a: &Candidate, b: &Candidate) -> bool {
        (a.deadline, a.level, a.number) < (b.deadline, b.level, b.number)
    }
}
