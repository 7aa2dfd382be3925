ghost use Rattle.std.specs.Prelude.{◌≡◌, ◌+◌, ◌^◌, ◌<◌, ◌≤◌, true, if◌then◌else◌};
ghost use Rattle.runs.specs.Logs.{calm, switches};
ghost use Rattle.trials.specs.Comparing.{counted, is_over};

use runs::entry::Entry;
use std::ops::ControlFlow;
use tasks::units::Ticks;

// The accepted ticks so far: all of them, or those before the first switch.
pub(crate) type Count = ControlFlow<Ticks, Ticks>;

// The count after one more entry.
pub(crate) fn after(count: Count, entry: &Entry) -> Count
    requires { counted count + 1 < 2 ^ 64 }
    ensures ticks { counted result ≡ (if is_over count then counted count else counted count + calm entry.now) }
    ensures over { is_over result ≡ (if is_over count then true else switches entry.now) }
    ensures slow { counted result ≤ counted count + 1 }
{
    let ticks = Ticks(count?.0 + entry.calm_ticks().0);
    if entry.switched() {
        ControlFlow::Break(ticks)
    } else {
        ControlFlow::Continue(ticks)
    }
}

pub(crate) fn ticks_of(count: Count) -> Ticks
    ensures { result.0 ≡ counted count }
{
    let (ControlFlow::Continue(ticks) | ControlFlow::Break(ticks)) = count;
    ticks
}
