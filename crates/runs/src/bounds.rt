// The theorems: each stands in the contract of a function that does nothing.
ghost use Rattle.runs.specs.Agreement.{Lockstep};
ghost use Rattle.runs.specs.Bounds.{AgeBound, AgeInWords, SwitchBound, No12, No19, Only19, OwnRulesStand, Counts, Ties};
ghost use Rattle.runs.specs.Programs.{DefinedMaking, DefinedArrivals, DefinedTicks, Total, SharedStands};

// Every pending job is younger than its period.
pub fn age_bound_stands()
    ensures { AgeBound }
{}

// The same in plain words: fewer ticks than its period pass after an accepted arrival until an answer ends or drops the task.
pub fn age_bound_in_words()
    ensures { AgeInWords }
{}

// Under the same calls the shared rule switches no sooner than any other.
pub fn switch_bound_stands()
    ensures { SwitchBound }
{}

// The same from any two states that agree.
pub fn switch_bound_from_agreement()
    ensures { Lockstep }
{}

// No arrival is ever refused because a job is still pending.
pub fn never_still_pending()
    ensures { No12 }
{}

// A rule with the table's weights and total never meets 19.
pub fn own_rule_never_foreign()
    ensures { No19 }
{}

// The shared rule and a fixed rule of a table, and a ceiling over such a rule, have its weights and total.
pub fn rules_of_a_table_are_its_own()
    ensures { OwnRulesStand }
{}

// Any other rule meets nothing but 19, and nothing changes.
pub fn foreign_rule_always_foreign()
    ensures { Only19 }
{}

// The first switching answer tells how many ticks came before it; with no switch the clock does.
pub fn switch_clock_is_the_count()
    ensures { Counts }
{}

// Clock, pending jobs, arrivals and runs of a state are those that its log shows.
pub fn log_shows_its_state()
    ensures { Ties }
{}

// A new dispatcher as defined has the empty log.
pub fn making_is_produced()
    ensures { DefinedMaking }
{}

// An arrival as defined extends every log that is produced with the state before, and the log stays young.
pub fn arrivals_are_produced()
    ensures { DefinedArrivals }
{}

// So does a tick as defined.
pub fn ticks_are_produced()
    ensures { DefinedTicks }
{}

// Every string of calls has a produced log, whatever the rule does at each call.
pub fn every_string_of_calls_is_answered()
    ensures { Total }
{}

// The shared rule of a table is such a rule.
pub fn shared_rule_is_a_rule()
    ensures { SharedStands }
{}
