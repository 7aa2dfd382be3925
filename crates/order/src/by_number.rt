ghost use Rattle.order.specs.Ties.{by_number};
ghost use Rattle.std.proofs.Common.{rules};

use super::candidate::Candidate;
use super::tie_order::TieOrder;

// By deadline, then number.
#[derive(Clone, Copy)]
pub struct ByNumber;

impl TieOrder for ByNumber {
    ghost ahead = { λ _. by_number };

    ghost one_way = { Prim.search rules };

    ghost transitive = { Prim.search rules };

    ghost refines_deadlines = { Prim.search rules };

    fn goes_ahead(&self, a: &Candidate, b: &Candidate) -> bool {
        (a.deadline, a.number) < (b.deadline, b.number)
    }
}
