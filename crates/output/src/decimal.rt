ghost use Rattle.std.specs.Prelude.{◌≡◌, ◌+◌, ◌≤◌, length, decimal};
ghost use Rattle.output.specs.Written.{over, over_if, behind_if};

use std::marker::Model;

// How many digits a number has in base ten. They are counted and made by hand: what `write!` writes is promised only where it answers Ok, and no contract says when it does. The repository stands on `std` alone, so no crate makes them either.
pub(crate) fn digit_count(n: u64) -> usize
    ensures { result ≡ length (decimal n) }
{
    let mut rest = n;
    let mut count: usize = 1;
    while rest >= 10 {
        rest /= 10;
        count += 1;
    }
    count
}

// Writes a number in base ten between two places that are as far apart as it has digits, the last digit first.
pub(crate) fn put_digits(n: u64, out: &mut [u8], at: usize, behind: usize)
    requires places { behind ≡ at + length (decimal n) }
    requires room { behind ≤ length out.old }
    ensures { out.new ≡ over at (decimal n) out.old }
{
    let mut end = behind;
    let mut rest = n;
    while rest >= 10 {
        end -= 1;
        out[end] = b'0' + (rest % 10) as u8;
        rest /= 10;
    }
    out[at] = b'0' + rest as u8;
}

// The digits of a number in base ten, which end where the array ends. One division a digit makes them; `put_digits` counts them first, for a line, where a copy would wait for what was just stored.
#[derive(Drop)]
pub(crate) struct Digits {
    bytes: [u8; 20],
    start: usize,
}

// Clauses see the digits.
impl Model for Digits {
    ghost use Rattle.std.specs.Prelude.{ℕ, ◌≤◌, List, drop};

    ghost Value = { List ℕ };

    ghost view = { λ d. drop d.start d.bytes };

    ghost invariant = { λ d. d.start ≤ 20 };
}

impl From<u64> for Digits {
    ghost from_gives = { λ n digits. digits ≡ decimal n };

    fn from(n: u64) -> Digits {
        let mut bytes = [0; 20];
        let mut start = 19;
        let mut rest = n;
        // no `for`: one over the places would have an end that is never reached
        while rest >= 10 {
            bytes[start] = b'0' + (rest % 10) as u8;
            start -= 1;
            rest /= 10;
        }
        bytes[start] = b'0' + rest as u8;
        Digits { bytes, start }
    }
}

impl Digits {
    pub(crate) fn as_slice(&self) -> &[u8]
        ensures { result.now ≡ self.now }
    {
        &self.bytes[self.start..]
    }
}

// Writes a number in base ten at a place, and answers the place behind it. Where it does not fit, the answer is none and nothing is written. Buffer and place are its caller's, so they are no struct here.
#[tactic(auto, using(crate::proofs::Widths::widths))]
pub fn write_number(n: u64, out: &mut [u8], at: usize) -> Option<usize>
    ensures behind { result ≡ behind_if at (decimal n) out.old }
    ensures over { out.new ≡ over_if at (decimal n) out.old }
{
    let room = out.len().checked_sub(at)?;
    let digits = Digits::from(n);
    let digits = digits.as_slice();
    if digits.len() > room {
        return None;
    }
    let end = at + digits.len();
    out[at..end].copy_from_slice(digits);
    Some(end)
}
