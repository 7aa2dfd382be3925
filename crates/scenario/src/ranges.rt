ghost use Rattle.std.specs.Prelude.{◌≡◌, ◌≤◌, false, length};
ghost use Rattle.std.specs.Range.{range_inclusive_start, range_inclusive_end, range_inclusive_exhausted};
ghost use Rattle.scenario.specs.Items.{least, most, right_value, right_numbers};
ghost use Rattle.scenario.specs.Left.{to_come};
ghost use Rattle.scenario.specs.Numbers.{value};

use super::fields::Fields;
use super::kind::Kind;
use super::number::number;
use std::ops::RangeInclusive;

// What the number at a place, from 0, of a line may be.
fn range_at(kind: Kind, place: usize) -> RangeInclusive<u32>
    ensures least { range_inclusive_start result ≡ least kind place }
    ensures most { range_inclusive_end result ≡ most kind place }
    ensures exhausted { range_inclusive_exhausted result ≡ false }
{
    match (kind, place) {
        (Kind::Arrival, 1) => 1..=100_000,
        (Kind::Run, _) => 1..=10_000,
        _ => 0..=999_999_999,
    }
}

fn number_fits(kind: Kind, place: usize, field: &[u8]) -> bool
    ensures { result ≡ right_value kind place (value field.now) }
{
    number(field).is_some_and(|n| range_at(kind, place).contains(&n))
}

// Whether the fields that are left are numbers, each in its range.
pub(crate) fn numbers_fit(kind: Kind, fields: Fields) -> bool
    requires { length (to_come fields) ≤ 32 }
    ensures { result ≡ right_numbers kind 0 (to_come fields.entry) }
{
    fields
        .enumerate()
        .all(|(place, field)| number_fits(kind, place, field))
}
