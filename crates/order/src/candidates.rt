ghost use Rattle.std.specs.Prelude.{◌≡◌, ℕ, ◌+◌, ◌<◌};
ghost use Rattle.order.specs.declared.candidate.Candidate.{Candidate};

use super::candidate::Candidate;

// What the candidate of each slot is. Task number k + 1 stands at slot k, and the slots are 0 to 31. There is an answer for every slot, also where nothing stands, since no call has a condition.
pub trait Candidates {
    ghost at: { Self → ℕ → Candidate };

    fn candidate(&self, slot: u32) -> Candidate
        ensures { result ≡ at self.now slot };

    ghost numbered: { (x : Self) (slot : ℕ) → slot < 32 → (at x slot).number ≡ slot + 1 };
}
