ghost use Rattle.std.specs.Prelude.{◌≡◌};
ghost use Rattle.std.specs.Iterator.{YieldsFirstRef, item_count};
ghost use Rattle.output.specs.Lines.{fields, before};
ghost use Rattle.scenario.specs.Left.{to_come};

// The bytes before the first byte `stop`, or all where there is none.
pub(crate) fn before(text: &[u8], stop: u8) -> &[u8]
    ensures { result.now ≡ before stop text.now }
{
    text.iter()
        .position(|b| *b == stop)
        .map_or(text, |end| &text[..end])
}

// The fields of a line that are still to come, as the rest of the line's own bytes; behind the last field there is no rest. Not the library's `split`: a line is copied with its fields, and that iterator is not.
#[derive(Clone, Copy)]
pub struct Fields<'a> {
    pub(crate) rest: Option<&'a [u8]>,
}

impl<'a> Fields<'a> {
    // All fields of a line.
    pub(crate) fn new(line: &'a [u8]) -> Fields<'a>
        ensures { to_come result ≡ fields line.now }
    {
        Fields { rest: Some(line) }
    }
}

impl<'a> Iterator for Fields<'a> {
    type Item = &'a [u8];

    ghost next_gives = { YieldsFirstRef to_come };

    ghost remaining = { item_count to_come };

    // A call of its own would keep each field in memory.
    #[inline(always)]
    fn next(&mut self) -> Option<&'a [u8]> {
        let rest = self.rest?;
        let field = before(rest, b' ');
        self.rest = rest.get(field.len() + 1..);
        Some(field)
    }
}
