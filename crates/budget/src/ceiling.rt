ghost use Rattle.std.specs.Prelude.{◌≡◌, ℕ, min, Some, None, Ok, Err};
ghost use Rattle.table.specs.Firsts.{refusal};
ghost use Rattle.table.specs.Tables.{draft_of};
ghost use Rattle.budget.specs.Making.{ceiling_fault};
ghost use Rattle.budget.specs.Meaning.{Meaning};
ghost use Rattle.budget.specs.Rules.{under_ceiling, policy_under};
ghost use Rattle.budget.specs.Slots.{ticks_in};
ghost use Rattle.std.proofs.Common.{rules};

use super::lists::{Numbers, slots_of, ticks_of};
use super::refusal::CeilingRefusal;
use super::rule::{Metered, Rule};
use table::table::Table;
use tasks::units::{Shares, Ticks};

// A rule, and a ceiling on the run of each task. A task that has no number here has ceiling 0.
#[derive(Clone, Copy)]
pub struct Ceiling<R> {
    rule: R,
    ceilings: [Ticks; 32],
}

// A refused ceiling, and the rule that it was to stand over.
#[derive(Clone, Copy)]
pub struct CeilingRefused<R> {
    pub rule: R,
    pub refusal: CeilingRefusal,
}

impl<R: Drop> From<CeilingRefused<R>> for CeilingRefusal {
    ghost from_gives = { λ refused refusal. refusal ≡ refused.refusal };

    fn from(refused: CeilingRefused<R>) -> CeilingRefusal {
        refused.refusal
    }
}

fn check_ceilings(table: &Table, ceilings: &[Ticks]) -> Result<(), CeilingRefusal>
    ensures { refusal result ≡ ceiling_fault (draft_of table.now) ceilings.now }
{
    let numbers = Numbers::new(table, ceilings).map_err(|(ceilings, tasks)| CeilingRefusal::Count(
        ceilings, tasks,
    ))?;
    numbers.check_sizes().map_err(CeilingRefusal::TooLarge)
}

impl<R> Ceiling<R> {
    // A ceiling over the rule, with one number for each task of the table.
    pub fn new(table: &Table, rule: R, ceilings: &[Ticks]) -> Result<Ceiling<R>, CeilingRefused<R>>
        ensures { elim result [ Ok c ↦ (ceiling_fault (draft_of table.now) ceilings.now ≡ None) × (c.rule ≡ rule) × ((i : ℕ) → ticks_in c.ceilings i ≡ ticks_in ceilings.now i) | Err e ↦ (ceiling_fault (draft_of table.now) ceilings.now ≡ Some e.refusal) × (e.rule ≡ rule) ] }
    {
        // not by `map_err`: the rule goes into either case, and need be no copy
        match check_ceilings(table, ceilings) {
            Ok(()) => Ok(Ceiling {
                rule,
                ceilings: slots_of(ceilings),
            }),
            Err(refusal) => Err(CeilingRefused { rule, refusal }),
        }
    }
}

impl<R: Rule> Rule for Ceiling<R> {
    ghost meaning = { λ c. under_ceiling (R.Rule.meaning c.rule) (ticks_in c.ceilings) };

    ghost policy = { λ c. policy_under (R.Rule.policy c.rule) (ticks_in c.ceilings) };

    ghost bounded = { λ x. let b = R.Rule.bounded x.rule in record { zeroth = b.zeroth; above = b.above } };

    ghost silent = { Prim.search rules };

    ghost fits = { Prim.search rules };

    fn ask(&self, task: u32, run: Ticks) -> bool {
        self.rule.ask(task, run) && run < ticks_of(&self.ceilings, task)
    }

    fn grant(&mut self, task: u32, run: Ticks) -> bool {
        run < ticks_of(&self.ceilings, task) && self.rule.grant(task, run)
    }

    fn rest(&mut self) {
        self.rule.rest();
    }

    fn weight(&self, task: u32) -> Shares {
        self.rule.weight(task)
    }

    fn total(&self) -> Shares {
        self.rule.total()
    }
}

impl<R: Metered> Metered for Ceiling<R> {
    ghost allowance = { λ c i. min (R.Metered.allowance c.rule i) (ticks_in c.ceilings i) };

    fn budget(&self, task: u32) -> Ticks {
        self.rule.budget(task).min(ticks_of(&self.ceilings, task))
    }
}
