ghost use Rattle.std.specs.Prelude.{◌≡◌};
ghost use Rattle.scenario.specs.Numbers.{value};

// The value of a number: 1 to 9 digits, with no 0 in front of others. None for anything else.
#[tactic(auto, using(crate::proofs::Digits::eight_digits))]
pub fn number(field: &[u8]) -> Option<u32>
    ensures { result ≡ value field.now }
{
    if field.is_empty() || field.len() > 9 {
        return None;
    }
    if field[0] == b'0' && field.len() > 1 {
        return None;
    }
    // A loop and no fold: only the count of digits so far tells that n * 10 fits.
    let mut n: u32 = 0;
    for digit in field {
        if !digit.is_ascii_digit() {
            return None;
        }
        n = n * 10 + u32::from(*digit - b'0');
    }
    Some(n)
}
