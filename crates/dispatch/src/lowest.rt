ghost use Rattle.std.specs.Prelude.{◌≡◌};
ghost use Rattle.order.specs.Bits.{bit};
ghost use Rattle.dispatch.specs.Questions.{lowest_task};

use runs::answer::Answer;

// The lowest task of a mask: bit i - 1 is task i.
pub fn lowest_task(mask: u32) -> Option<u32>
    ensures { result ≡ lowest_task (bit mask) }
{
    (mask != 0).then_some(mask.trailing_zeros() + 1)
}

// The lowest task that a tick dropped.
pub fn lowest_dropped(answer: &Answer) -> Option<u32>
    ensures { result ≡ lowest_task (bit answer.now.dropped) }
{
    lowest_task(answer.dropped)
}
