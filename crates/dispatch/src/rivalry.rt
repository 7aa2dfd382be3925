ghost use Rattle.table.specs.Tables.{draft_of};
ghost use Rattle.dispatch.specs.Turns.{rival, slot_of};
ghost use Rattle.std.proofs.Common.{rules};

use super::lookup::at;
use super::rivals::Rivals;
use super::row::Row;
use order::candidate::Candidate;
use order::candidates::Candidates;
use tasks::task::Level;
use tasks::units::Ticks;

impl Candidates for Rivals<'_, '_> {
    ghost at = { λ v k. rival v.mode (draft_of v.table.now) k (slot_of v.jobs.now k) };

    ghost numbered = { Prim.search rules };

    fn candidate(&self, slot: u32) -> Candidate {
        if slot >= 32 {
            return Candidate::new(Ticks(0), Level::High, 0);
        }
        let (table, jobs) = (self.table, self.jobs);
        let number = slot + 1;
        match at(jobs, slot) {
            Some(job) => Row { table, number }.contender(self.mode, job),
            None => Candidate::new(Ticks(0), Level::High, number),
        }
    }
}
