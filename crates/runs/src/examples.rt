// The theorems speak of something: each bound is met by a run.
ghost use Rattle.runs.specs.Examples.{AgeMet, SharedOutlasts, ShortEnd};

// A pending job whose age is one less than its period.
pub fn age_bound_is_met()
    ensures { AgeMet }
{}

// Two runs of the same calls in which the shared rule does not switch and fixed budgets do.
pub fn shared_rule_outlasts_fixed_budgets()
    ensures { SharedOutlasts }
{}

// A run that switches and keeps a low job until it had its assured part.
pub fn assured_job_ends_short()
    ensures { ShortEnd }
{}
