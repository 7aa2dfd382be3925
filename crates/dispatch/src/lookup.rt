ghost use Rattle.std.specs.Prelude.{◌≡◌, None, slice_index_or};
ghost use Rattle.runs.specs.States.{within as is_within, is_high};

use tasks::task::Criticality;
use tasks::units::Ticks;

// Whether a job is high, or has had less than its assured part.
pub(crate) fn within(criticality: Criticality, run: Ticks) -> bool
    ensures { result ≡ is_within criticality run.0 }
{
    match criticality {
        Criticality::High => true,
        Criticality::Low { assured } => run < assured,
    }
}

pub(crate) fn is_high(criticality: Criticality) -> bool
    ensures { result ≡ is_high criticality }
{
    criticality == Criticality::High
}

// What stands at a slot.
pub(crate) fn at<T: Copy>(slots: &[Option<T>], slot: u32) -> Option<T>
    ensures { result ≡ slice_index_or slots.now slot None }
{
    slots.get(slot as usize).copied().flatten()
}
