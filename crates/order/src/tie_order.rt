ghost use Rattle.std.specs.Prelude.{◌≡◌};
ghost use Rattle.order.specs.Orders.{Ahead, OneWay, Transitive, RefinesDeadlines};

use super::candidate::Candidate;

// Which of two candidates goes ahead. Its laws are asked of candidates with different numbers only.
pub trait TieOrder {
    ghost ahead: { Self → Ahead };

    fn goes_ahead(&self, a: &Candidate, b: &Candidate) -> bool
        ensures { result ≡ ahead self.now a.now b.now };

    ghost one_way: { (x : Self) → OneWay (ahead x) };

    ghost transitive: { (x : Self) → Transitive (ahead x) };

    ghost refines_deadlines: { (x : Self) → RefinesDeadlines (ahead x) };
}
