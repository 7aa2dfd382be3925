ghost use Rattle.std.specs.Prelude.{◌≡◌, ℕ, ◌^◌, ◌<◌, ◌≤◌, length};
ghost use Rattle.scenario.specs.Left.{to_come};
ghost use Rattle.transcript.specs.Steps.{amount, amounts};
ghost use Rattle.play.specs.Lists.{listing};

use super::tick_list::TickList;
use scenario::fields::Fields;
use scenario::number::number;
use tasks::units::Ticks;

// The value of a field; the reader lets only numbers through. A line hands its fields on as the text that they are, so the value is read here.
pub(crate) fn amount(field: &[u8]) -> u32
    ensures { result ≡ amount field.now }
{
    number(field).unwrap_or(0)
}

pub(crate) fn ticks(field: &[u8]) -> Ticks
    ensures { result.0 ≡ amount field.now }
{
    Ticks(u64::from(amount(field)))
}

impl TickList {
    pub(crate) fn as_slice(&self) -> &[Ticks]
        ensures { result.now ≡ listing self.now }
    {
        &self.slots[..self.count]
    }
}

// The values of the fields.
pub(crate) fn tick_list(fields: Fields) -> TickList
    requires { length (to_come fields) ≤ 32 }
    ensures { listing result ≡ amounts (to_come fields.entry) }
{
    let mut slots = [Ticks(0); 32];
    for (slot, field) in fields.enumerate() {
        slots[slot] = ticks(field);
    }
    TickList {
        slots,
        count: fields.count(),
    }
}
