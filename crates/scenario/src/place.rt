ghost use Rattle.std.specs.Prelude.{◌+◌, ◌≤◌};

use super::kind::Phase;

// The place of the next line: where it begins, its number from 1, and how far the order of lines has come.
#[derive(Clone, Copy)]
pub struct Place {
    pub at: usize,
    pub line: u32,
    pub phase: Phase,
}

// The lines of a text, one by one.
#[derive(Drop)]
pub struct Reader<'a> {
    pub(crate) text: &'a [u8],
    pub(crate) place: Place,
    ghost numbered: { place.line ≤ place.at + 1 },
}
