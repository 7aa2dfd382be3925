ghost use Rattle.std.specs.Prelude.{◌≡◌};
ghost use Rattle.std.specs.Option.{ok_or};
ghost use Rattle.output.specs.declared.fault.ReaderRefusal.TheVariants.{Letter};
ghost use Rattle.scenario.specs.Kinds.{kind_of, next_phase, allowed, may_end};

use output::fault::ReaderRefusal;

// What a line is, as its letter says.
#[derive(Clone, Copy)]
pub enum Kind {
    Scale,
    High,
    Low,
    Shared,
    Fixed,
    Ceiling,
    Arrival,
    Run,
}

// How far the order of lines has come: before the S line, among the tasks, behind the M or F line, behind the C line or the first event.
#[derive(Clone, Copy)]
pub enum Phase {
    Start,
    Tasks,
    Ruled,
    Events,
}

// The kind whose letter is the whole field.
impl TryFrom<&[u8]> for Kind {
    type Error = ReaderRefusal;

    ghost try_from_gives = { λ field result. result ≡ ok_or (kind_of field.now) Letter };

    fn try_from(field: &[u8]) -> Result<Kind, ReaderRefusal> {
        let [letter] = field else {
            return Err(ReaderRefusal::Letter);
        };
        match *letter as char {
            'S' => Ok(Kind::Scale),
            'H' => Ok(Kind::High),
            'L' => Ok(Kind::Low),
            'M' => Ok(Kind::Shared),
            'F' => Ok(Kind::Fixed),
            'C' => Ok(Kind::Ceiling),
            'A' => Ok(Kind::Arrival),
            'R' => Ok(Kind::Run),
            _ => Err(ReaderRefusal::Letter),
        }
    }
}

impl Kind {
    // The phase behind a line of this kind.
    pub(crate) fn next_phase(self) -> Phase
        ensures { result ≡ next_phase self }
    {
        match self {
            Kind::Scale | Kind::High | Kind::Low => Phase::Tasks,
            Kind::Shared | Kind::Fixed => Phase::Ruled,
            Kind::Ceiling | Kind::Arrival | Kind::Run => Phase::Events,
        }
    }
}

impl Phase {
    // Whether a line of this kind may come next.
    pub(crate) fn allows(self, kind: Kind) -> bool
        ensures { result ≡ allowed self kind }
    {
        match self {
            Phase::Start => matches!(kind, Kind::Scale),
            Phase::Tasks => matches!(kind, Kind::High | Kind::Low | Kind::Shared | Kind::Fixed),
            Phase::Ruled => matches!(kind, Kind::Ceiling | Kind::Arrival | Kind::Run),
            Phase::Events => matches!(kind, Kind::Arrival | Kind::Run),
        }
    }

    // Whether the text may end here.
    pub(crate) fn may_end(self) -> bool
        ensures { result ≡ may_end self }
    {
        matches!(self, Phase::Ruled | Phase::Events)
    }
}
