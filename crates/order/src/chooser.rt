ghost use Rattle.order.specs.Choice.{ChosenFrom};

use super::candidates::Candidates;
use super::slots::Slots;
use super::tie_order::TieOrder;

// The slot whose candidate goes ahead of every other one, of the slots whose bits are set in the mask; none where no bit is set.
pub fn first<O: TieOrder, C: Candidates>(order: &O, candidates: &C, mask: u32) -> Option<u32>
    ensures { ChosenFrom (O.TieOrder.ahead order.now) (C.Candidates.at candidates.now) mask result }
{
    let mut slots = Slots::of(mask);
    let mut best = slots.next()?;
    let mut leader = candidates.candidate(best);
    for slot in slots {
        let rival = candidates.candidate(slot);
        if order.goes_ahead(&rival, &leader) {
            best = slot;
            leader = rival;
        }
    }
    Some(best)
}
