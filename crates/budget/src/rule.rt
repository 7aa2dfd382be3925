ghost use Rattle.std.specs.Prelude.{◌≡◌, ℕ, Bool, false, nat_lt};
ghost use Rattle.budget.specs.Meaning.{Meaning, Bounded, Silent, Fits, Granted, Rested};

use tasks::units::{Shares, Ticks};

// May this job have one more tick? A rule answers by its meaning: its weights, its total, the longest run of each task since
// the last rest, and a yes or no for each task and run (two parameters, as the question is asked). What the yes set of a further rule becomes after a grant or a rest is its
// own; the laws bind it.
pub trait Rule {
    ghost meaning: { Self → Meaning };

    // The yes set that the rule has at given longest runs, where it depends on nothing else. No grant and no rest alters it.
    // A rule that leaves it out promises nothing by it.
    ghost policy: { Self → (ℕ → ℕ) → ℕ → ℕ → Bool } = { λ _ _ _ _. false };

    // Whether the task's job, which has run so far, may have one more tick.
    fn ask(&self, task: u32, run: Ticks) -> bool
        ensures { result ≡ (meaning self.now).yes task run.0 };

    // Answers as `ask`; on yes the task's longest run is raised to at least run + 1.
    fn grant(&mut self, task: u32, run: Ticks) -> bool
        ensures granted { Granted (meaning self.old) (meaning self.new) task run.0 result }
        ensures policy { policy self.new ≡ policy self.old };

    // Makes every longest run 0.
    fn rest(&mut self)
        ensures rested { Rested (meaning self.old) (meaning self.new) }
        ensures policy { policy self.new ≡ policy self.old };

    // The task's weight: 0 where it is low or absent.
    fn weight(&self, task: u32) -> Shares
        ensures { result.0 ≡ (meaning self.now).weight task };

    fn total(&self) -> Shares
        ensures { result.0 ≡ (meaning self.now).total };

    ghost bounded: { (x : Self) → Bounded (meaning x) };

    ghost silent: { (x : Self) → Silent (meaning x) };

    ghost fits: { (x : Self) → Fits (meaning x) };
}

// A rule that also tells a task's budget: the number b for which the question is yes exactly for runs below b.
pub trait Metered: Rule {
    ghost allowance: { Self → ℕ → ℕ };

    fn budget(&self, task: u32) -> Ticks
        ensures is { result.0 ≡ allowance self.now task }
        ensures tied { (run : ℕ) → (Self.Rule.meaning self.now).yes task run ≡ nat_lt run result.0 };
}
