ghost use Rattle.std.specs.Prelude.{◌≡◌};
ghost use Rattle.play.specs.declared.stop.Stop.TheVariants.{Table, Fixed, Ceiling};
ghost use Rattle.play.specs.Stops.{fault_of, IsNear};

use super::printing::{rule_fault, table_fault};
use budget::refusal::{CeilingRefusal, FixedRefusal};
use output::fault::{Fault, ReaderRefusal};
use tasks::refusal::TableRefusal;

// Why a line is not carried out. The reader lets no line through that is out of place; a course tells so all the same, since its steps have no condition.
#[derive(Clone, Copy)]
pub(crate) enum Stop {
    OutOfPlace,
    Table(TableRefusal),
    Fixed(FixedRefusal),
    Ceiling(CeilingRefusal),
}

impl From<TableRefusal> for Stop {
    ghost from_gives = { λ e s. s ≡ Table e };

    fn from(refusal: TableRefusal) -> Stop {
        Stop::Table(refusal)
    }
}

impl From<FixedRefusal> for Stop {
    ghost from_gives = { λ e s. s ≡ Fixed e };

    fn from(refusal: FixedRefusal) -> Stop {
        Stop::Fixed(refusal)
    }
}

impl From<CeilingRefusal> for Stop {
    ghost from_gives = { λ e s. s ≡ Ceiling e };

    fn from(refusal: CeilingRefusal) -> Stop {
        Stop::Ceiling(refusal)
    }
}

impl Stop {
    // The fault on the given line; a refused table's is on the line that it blames.
    pub(crate) fn at(self, line: u32) -> Fault
        requires { IsNear self }
        ensures { result ≡ fault_of line self }
    {
        match self {
            Stop::OutOfPlace => ReaderRefusal::Order.at(line),
            Stop::Table(refusal) => table_fault(&refusal),
            Stop::Fixed(refusal) => rule_fault(line, refusal.number()),
            Stop::Ceiling(refusal) => rule_fault(line, refusal.number()),
        }
    }
}
