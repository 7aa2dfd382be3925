// A further budget rule, as an example of what one costs, and trials of the crate's own rules at their edges.
#![tactic(auto)]

ghost use Rattle.std.specs.Prelude.{◌≡◌};
ghost use Rattle.budget.specs.Meaning.{Meaning};
ghost use Rattle.further.specs.Never.{never_meaning};
ghost use Rattle.std.proofs.Common.{rules};

use budget::rule::{Metered, Rule};
use tasks::units::{Shares, Ticks};

// A rule without memory that always says no. Lawful: no law asks for a yes.
#[derive(Clone, Copy)]
pub struct Never {
    pub total: Shares,
}

impl Rule for Never {
    ghost meaning = { never_meaning };

    ghost bounded = { Prim.search rules };

    ghost silent = { Prim.search rules };

    ghost fits = { Prim.search rules };

    fn ask(&self, task: u32, run: Ticks) -> bool {
        false
    }

    fn grant(&mut self, task: u32, run: Ticks) -> bool {
        false
    }

    fn rest(&mut self) {}

    fn weight(&self, task: u32) -> Shares {
        Shares(0)
    }

    fn total(&self) -> Shares {
        self.total
    }
}

impl Metered for Never {
    ghost allowance = { λ _ _. 0 };

    fn budget(&self, task: u32) -> Ticks {
        Ticks(0)
    }
}

#[cfg(test)]
mod tests {
    use super::*;
    use budget::ceiling::Ceiling;
    use budget::fixed::Fixed;
    use budget::shared::Shared;
    use std::test::Fail;
    use table::draft::Draft;
    use table::table::Table;
    use tasks::task::{Factor, Task};

    fn high(period: u64, worst: u64) -> Task {
        Task::high(Ticks(period), Ticks(worst))
    }

    fn accepted(draft: Draft<'_>) -> Result<Table, Fail> {
        Table::accept(&draft).map_err(|_| Fail::new("refused"))
    }

    // One low task and two high ones; the total is given.
    fn press(total: u64) -> Result<Table, Fail> {
        accepted(Draft {
            scale: Shares(10),
            total: Shares(total),
            factor: Factor { p: 2, q: 5 },
            tasks: &[
                Task::low(Ticks(10), Ticks(5), Ticks(0)),
                high(10, 4),
                high(10, 4),
            ],
        })
    }

    // One high task with the largest weight that there is.
    fn heavy() -> Result<Table, Fail> {
        accepted(Draft {
            scale: Shares(1_000_000),
            total: Shares(1_000_000),
            factor: Factor { p: 1, q: 1 },
            tasks: &[high(1, 1)],
        })
    }

    #[test]
    fn shared_at_its_edges(rt: HostRuntime) -> Result<(), Fail> {
        let mut rule = Shared::new(&press(2)?);
        for (number, budget) in [
            (0, 0),
            (1, 0),
            (2, 2),
            (3, 2),
            (4, 0),
            (32, 0),
            (33, 0),
            (u32::MAX, 0),
        ] {
            assert_eq!(rt; rule.budget(number).0, budget);
            assert_eq!(rt; rule.ask(number, Ticks(0)), budget > 0);
            assert!(rt; !rule.ask(number, Ticks(u64::MAX)));
            assert!(rt; !rule.grant(number, Ticks(u64::MAX)));
        }
        assert!(rt; rule.grant(3, Ticks(0)));
        assert_eq!(rt; rule.budget(2).0, 1);
        assert_eq!(rt; rule.budget(3).0, 2);
        assert!(rt; !rule.grant(2, Ticks(1)));
        assert_eq!(rt; rule.budget(2).0, 1);
        rule.rest();
        assert_eq!(rt; rule.budget(2).0, 2);
        Ok(())
    }

    #[test]
    fn totals_and_weights(rt: HostRuntime) -> Result<(), Fail> {
        let none = Shared::new(&press(0)?);
        assert_eq!(rt; none.budget(2).0, 0);
        assert_eq!(rt; none.total().0, 0);
        let rule = Shared::new(&heavy()?);
        assert_eq!(rt; rule.weight(1).0, 1_000_000);
        assert_eq!(rt; rule.budget(1).0, 1);
        assert!(rt; !rule.ask(1, Ticks(1)));
        Ok(())
    }

    #[test]
    fn fixed_budgets(rt: HostRuntime) -> Result<(), Fail> {
        let table = press(2)?;
        let lists: [(&[Ticks], u8, Option<u32>); 6] = [
            (&[Ticks(0), Ticks(1)], 15, None),
            (&[Ticks(0), Ticks(1), Ticks(1), Ticks(0)], 15, None),
            (&[Ticks(1), Ticks(100_001), Ticks(0)], 15, Some(1)),
            (&[Ticks(0), Ticks(2), Ticks(100_001)], 16, Some(3)),
            (&[Ticks(0), Ticks(100_000), Ticks(0)], 17, None),
            (&[Ticks(0), Ticks(2), Ticks(1)], 17, None),
        ];
        for (list, number, task) in lists {
            let reason = Fixed::new(&table, list)
                .err()
                .map(|refusal| (refusal.number(), refusal.task()));
            assert_eq!(rt; reason, Some((number, task)));
        }
        let mut rule = Fixed::new(&table, &[Ticks(0), Ticks(1), Ticks(1)]).map_err(|_| Fail::new(
            "refused",
        ))?;
        assert!(rt; rule.grant(2, Ticks(0)));
        assert!(rt; !rule.grant(2, Ticks(1)));
        assert!(rt; !rule.ask(1, Ticks(0)));
        assert!(rt; !rule.ask(2, Ticks(u64::MAX)));
        assert_eq!(rt; rule.budget(3).0, 1);
        Ok(())
    }

    #[test]
    fn ceilings(rt: HostRuntime) -> Result<(), Fail> {
        let table = press(2)?;
        let lists: [&[Ticks]; 3] = [
            &[Ticks(9), Ticks(9)],
            &[Ticks(9), Ticks(9), Ticks(9), Ticks(9)],
            &[Ticks(0), Ticks(0), Ticks(100_001)],
        ];
        for list in lists {
            let number = Ceiling::new(&table, Shared::new(&table), list)
                .err()
                .map(|refused| refused.refusal.number());
            assert_eq!(rt; number, Some(18));
        }
        let mut rule = Ceiling::new(
            &table,
            Shared::new(&table),
            &[Ticks(100_000), Ticks(1), Ticks(0)],
        )
        .map_err(|_| Fail::new("refused"))?;
        for (number, budget) in [(0, 0), (1, 0), (2, 1), (3, 0), (33, 0)] {
            assert_eq!(rt; rule.budget(number).0, budget);
            assert!(rt; !rule.ask(number, Ticks(u64::MAX)));
        }
        assert!(rt; rule.grant(2, Ticks(0)));
        assert!(rt; !rule.grant(2, Ticks(1)));
        assert!(rt; !rule.grant(3, Ticks(0)));
        Ok(())
    }

    #[test]
    fn never(rt: HostRuntime) {
        let mut rule = Never { total: Shares(2) };
        assert!(rt; !rule.ask(2, Ticks(0)));
        assert!(rt; !rule.grant(2, Ticks(0)));
        assert_eq!(rt; rule.budget(2).0, 0);
    }
}
