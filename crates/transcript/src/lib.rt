// What the board prints for a text, as a definition, and what holds of it.
#![tactic(auto)]

ghost use Rattle.transcript.specs.Ages.{EveryTextStaysYoung};
ghost use Rattle.transcript.specs.Contests.{SharedLastsLongest};

// No text makes the board show a task that is as old as its period.
pub fn transcripts_stay_young()
    ensures { EveryTextStaysYoung }
{}

// Where a text has fixed budgets, the shared rule in their place makes the first switch come no sooner.
pub fn shared_rule_lasts_longest()
    ensures { SharedLastsLongest }
{}
