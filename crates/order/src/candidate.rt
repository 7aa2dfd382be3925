ghost use Rattle.std.specs.Prelude.{◌≡◌};
ghost use Rattle.order.specs.Orders.{candidate};

use tasks::task::Level;
use tasks::units::Ticks;

// A task that could run next, with the deadline that it has now.
#[derive(Clone, Copy, PartialEq, Eq, Debug)]
pub struct Candidate {
    pub deadline: Ticks,
    pub level: Level,
    pub number: u32,
}

impl Candidate {
    pub fn new(deadline: Ticks, level: Level, number: u32) -> Candidate
        ensures { result ≡ candidate deadline.0 level number }
    {
        Candidate {
            deadline,
            level,
            number,
        }
    }
}
