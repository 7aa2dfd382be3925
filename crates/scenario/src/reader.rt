ghost use Rattle.std.specs.Prelude.{◌≡◌};
ghost use Rattle.table.specs.Firsts.{refusal};
ghost use Rattle.scenario.specs.Reading.{start, next, moved, lines_after, shown_next, Good};
ghost use Rattle.scenario.specs.Readers.{text_of, place_of, lines_left};
ghost use Rattle.scenario.specs.Whole.{text_fault};

use super::fields::before;
use super::kind::Phase;
use super::lines::{Line, read_line};
use super::place::{Place, Reader};
use output::fault::{Fault, ReaderRefusal};

impl<'a> Reader<'a> {
    // A reader at the first line.
    pub fn new(text: &'a [u8]) -> Reader<'a>
        ensures text { text_of result ≡ text.now }
        ensures place { place_of result ≡ start }
    {
        Reader {
            text,
            place: Place {
                at: 0,
                line: 1,
                phase: Phase::Start,
            },
        }
    }

    // The number of the next line.
    pub fn line_number(&self) -> u32
        ensures { result ≡ (place_of self.now).line }
    {
        self.place.line
    }

    // The next line, none at the end of the text, or the fault that stops the reading. Behind the last line and at a fault the reader stays, and answers the same for ever.
    pub fn next_line(&mut self) -> Result<Option<Line<'a>>, Fault>
        ensures item { shown_next result ≡ next (text_of self.old) (place_of self.old) }
        ensures place { place_of self.new ≡ moved (text_of self.old) (place_of self.old) (shown_next result) }
        ensures lines { lines_left self.new ≡ lines_after (shown_next result) (lines_left self.old) }
        ensures text { text_of self.new ≡ text_of self.old }
        ensures good { Good (shown_next result) }
    {
        let text = self.text;
        let Place { at, line, phase } = self.place;
        if text.len() > 65_536 {
            return Err(ReaderRefusal::Length.at(0));
        }
        if at >= text.len() {
            if phase.may_end() {
                return Ok(None);
            }
            return Err(ReaderRefusal::Order.at(line));
        }
        let bytes = before(&text[at..], b'\n');
        // Not by `map_err`: the line would be put together a second time, which doubles the time of a read.
        let read = match read_line(phase, bytes) {
            Ok(read) => read,
            Err(refusal) => return Err(refusal.at(line)),
        };
        self.place = Place {
            at: at + bytes.len() + 1,
            line: line + 1,
            phase: read.kind().next_phase(),
        };
        Ok(Some(read))
    }
}

// Whether every line of a text can be read, and the first fault if not. The table and the rule that the lines describe are not looked at.
pub fn check_text(text: &[u8]) -> Result<(), Fault>
    ensures { refusal result ≡ text_fault text.now }
{
    let mut reader = Reader::new(text);
    // Not by `is_some`: the line would be put together once more.
    while let Some(_) = reader.next_line()? {}
    Ok(())
}
