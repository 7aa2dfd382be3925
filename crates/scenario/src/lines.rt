ghost use Rattle.std.specs.Prelude.{◌≡◌, length, if◌then◌else◌, Some, None};
ghost use Rattle.scenario.specs.Items.{item, right_count, item_fault, judged, read};
ghost use Rattle.scenario.specs.Left.{to_come};
ghost use Rattle.scenario.specs.Numbers.{in_range};
ghost use Rattle.scenario.specs.Shown.{shown, shown_some, shown_ok};

use super::fields::Fields;
use super::kind::{Kind, Phase};
use super::ranges::numbers_fit;
use output::fault::ReaderRefusal;

// A line of the text with the fields of its numbers, each the very part of the text that it is.
#[derive(Clone, Copy)]
pub enum Line<'a> {
    Scale {
        scale: &'a [u8],
        total: &'a [u8],
        p: &'a [u8],
        q: &'a [u8],
    },
    High {
        period: &'a [u8],
        worst: &'a [u8],
    },
    Low {
        period: &'a [u8],
        worst: &'a [u8],
        assured: &'a [u8],
    },
    Shared,
    Fixed(Fields<'a>),
    Ceiling(Fields<'a>),
    Arrival {
        task: &'a [u8],
        need: &'a [u8],
    },
    Run {
        ticks: &'a [u8],
    },
}

impl<'a> Line<'a> {
    // The line's kind.
    pub fn kind(&self) -> Kind
        ensures { result ≡ (shown self.now).kind }
    {
        match self {
            Line::Scale { .. } => Kind::Scale,
            Line::High { .. } => Kind::High,
            Line::Low { .. } => Kind::Low,
            Line::Shared => Kind::Shared,
            Line::Fixed(_) => Kind::Fixed,
            Line::Ceiling(_) => Kind::Ceiling,
            Line::Arrival { .. } => Kind::Arrival,
            Line::Run { .. } => Kind::Run,
        }
    }
}

// Whether 1 to 32 fields are left. The 33rd tells that there are more.
fn is_list(fields: Fields) -> bool
    ensures { result ≡ in_range 1 32 (length (to_come fields.entry)) }
{
    (1..=32).contains(&fields.take(33).count())
}

// A line of this kind with these fields, if their count is right. The two are no pair: the fields are used up, and the kind is not.
fn shaped<'a>(kind: Kind, mut fields: Fields<'a>) -> Option<Line<'a>>
    ensures { shown_some result ≡ (if right_count kind (length (to_come fields.entry)) then Some (item kind (to_come fields.entry)) else None) }
{
    let line = match kind {
        Kind::Scale => Line::Scale {
            scale: fields.next()?,
            total: fields.next()?,
            p: fields.next()?,
            q: fields.next()?,
        },
        Kind::High => Line::High {
            period: fields.next()?,
            worst: fields.next()?,
        },
        Kind::Low => Line::Low {
            period: fields.next()?,
            worst: fields.next()?,
            assured: fields.next()?,
        },
        Kind::Shared => Line::Shared,
        Kind::Fixed => return is_list(fields).then_some(Line::Fixed(fields)),
        Kind::Ceiling => return is_list(fields).then_some(Line::Ceiling(fields)),
        Kind::Arrival => Line::Arrival {
            task: fields.next()?,
            need: fields.next()?,
        },
        Kind::Run => Line::Run {
            ticks: fields.next()?,
        },
    };
    fields.next().is_none().then_some(line)
}

// A line of this kind with these fields, or its first refusal.
fn judge<'a>(phase: Phase, kind: Kind, fields: Fields<'a>) -> Result<Line<'a>, ReaderRefusal>
    ensures { shown_ok result ≡ judged (item_fault phase kind (to_come fields.entry)) (item kind (to_come fields.entry)) }
{
    if !phase.allows(kind) {
        return Err(ReaderRefusal::Order);
    }
    let line = shaped(kind, fields).ok_or(ReaderRefusal::Count)?;
    if !numbers_fit(kind, fields) {
        return Err(ReaderRefusal::Number);
    }
    Ok(line)
}

// What a line without its byte 10 says in a phase, or its first refusal.
pub(crate) fn read_line<'a>(phase: Phase, line: &'a [u8]) -> Result<Line<'a>, ReaderRefusal>
    ensures { shown_ok result ≡ read phase line.now }
{
    let mut fields = Fields::new(line);
    let letter = fields.next().ok_or(ReaderRefusal::Letter)?;
    let kind = Kind::try_from(letter)?;
    judge(phase, kind, fields)
}
