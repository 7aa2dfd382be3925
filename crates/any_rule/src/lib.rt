// A budget rule that is chosen as the program runs: the shared or the fixed rule, with or without a ceiling.
#![tactic(auto)]

ghost use Rattle.std.specs.Prelude.{◌≡◌, Ok, Err};
ghost use Rattle.table.specs.Firsts.{refusal};
ghost use Rattle.table.specs.Tables.{draft_of};
ghost use Rattle.budget.specs.Making.{ceiling_fault};
ghost use Rattle.budget.specs.Rules.{under_ceiling, policy_under};
ghost use Rattle.budget.specs.Slots.{ticks_in};
ghost use Rattle.any_rule.specs.Any.{Any, meaning_of_base, policy_of_base, meaning_of_any, policy_of_any, budget_of_any};
ghost use Rattle.any_rule.specs.Either.{of_either};
ghost use Rattle.any_rule.specs.declared.OneOf.TheVariants.{First, Second};

use budget::ceiling::Ceiling;
use budget::fixed::Fixed;
use budget::refusal::CeilingRefusal;
use budget::rule::{Metered, Rule};
use budget::shared::Shared;
use table::table::Table;
use tasks::units::{Shares, Ticks};

// One of two rules. Each method asks the rule that it is.
#[derive(Clone, Copy)]
pub enum OneOf<A, B> {
    First(A),
    Second(B),
}

// A rule without a ceiling.
pub type BaseRule = OneOf<Shared, Fixed>;

// A rule under a ceiling.
pub type CappedRule = OneOf<Ceiling<Shared>, Ceiling<Fixed>>;

// A rule with or without a ceiling.
pub type AnyRule = OneOf<BaseRule, CappedRule>;

// The meaning, the policy and the budgets of such a rule are the defined ones.
pub fn any_rule_is_as_defined()
    ensures meaning { (rule : Any) → ⟦<AnyRule as Rule>⟧.meaning rule ≡ meaning_of_any rule }
    ensures policy { (rule : Any) → ⟦<AnyRule as Rule>⟧.policy rule ≡ policy_of_any rule }
    ensures budget { (rule : Any) → ⟦<AnyRule as Metered>⟧.allowance rule ≡ budget_of_any rule }
{}

impl From<Shared> for BaseRule {
    ghost from_gives = { λ shared base. base ≡ First shared };

    fn from(shared: Shared) -> BaseRule {
        OneOf::First(shared)
    }
}

impl From<Fixed> for BaseRule {
    ghost from_gives = { λ fixed base. base ≡ Second fixed };

    fn from(fixed: Fixed) -> BaseRule {
        OneOf::Second(fixed)
    }
}

impl BaseRule {
    // The rule alone.
    pub fn plain(self) -> AnyRule
        ensures meaning { meaning_of_any result ≡ meaning_of_base self }
        ensures policy { policy_of_any result ≡ policy_of_base self }
    {
        OneOf::First(self)
    }

    // The rule under a ceiling, with one number for each task of the table.
    pub fn under(self, table: &Table, ceilings: &[Ticks]) -> Result<AnyRule, CeilingRefusal>
        ensures refused { refusal result ≡ ceiling_fault (draft_of table.now) ceilings.now }
        ensures meaning { elim result [ Ok a ↦ meaning_of_any a ≡ under_ceiling (meaning_of_base self) (ticks_in ceilings.now) | Err e ↦ Unit {0} ] }
        ensures policy { elim result [ Ok a ↦ policy_of_any a ≡ policy_under (policy_of_base self) (ticks_in ceilings.now) | Err e ↦ Unit {0} ] }
    {
        let capped = match self {
            OneOf::First(rule) => OneOf::First(Ceiling::new(table, rule, ceilings)?),
            OneOf::Second(rule) => OneOf::Second(Ceiling::new(table, rule, ceilings)?),
        };
        Ok(OneOf::Second(capped))
    }
}

impl<A: Rule, B: Rule> Rule for OneOf<A, B> {
    ghost meaning = { of_either A.Rule.meaning B.Rule.meaning };

    ghost policy = { of_either A.Rule.policy B.Rule.policy };

    ghost bounded = { elim [ First a ↦ A.Rule.bounded a | Second b ↦ B.Rule.bounded b ] };

    ghost silent = { elim [ First a ↦ A.Rule.silent a | Second b ↦ B.Rule.silent b ] };

    ghost fits = { elim [ First a ↦ A.Rule.fits a | Second b ↦ B.Rule.fits b ] };

    fn ask(&self, task: u32, run: Ticks) -> bool {
        match self {
            OneOf::First(rule) => rule.ask(task, run),
            OneOf::Second(rule) => rule.ask(task, run),
        }
    }

    fn grant(&mut self, task: u32, run: Ticks) -> bool {
        match self {
            OneOf::First(rule) => rule.grant(task, run),
            OneOf::Second(rule) => rule.grant(task, run),
        }
    }

    fn rest(&mut self) {
        match self {
            OneOf::First(rule) => rule.rest(),
            OneOf::Second(rule) => rule.rest(),
        }
    }

    fn weight(&self, task: u32) -> Shares {
        match self {
            OneOf::First(rule) => rule.weight(task),
            OneOf::Second(rule) => rule.weight(task),
        }
    }

    fn total(&self) -> Shares {
        match self {
            OneOf::First(rule) => rule.total(),
            OneOf::Second(rule) => rule.total(),
        }
    }
}

impl<A: Metered, B: Metered> Metered for OneOf<A, B> {
    ghost allowance = { of_either A.Metered.allowance B.Metered.allowance };

    fn budget(&self, task: u32) -> Ticks {
        match self {
            OneOf::First(rule) => rule.budget(task),
            OneOf::Second(rule) => rule.budget(task),
        }
    }
}
