ghost use Rattle.std.specs.Prelude.{◌≡◌, ℕ, ◌<◌, ◌∷◌, Some, None, Ok, Err};
ghost use Rattle.std.specs.Iterator.{YieldsFirst, item_count};
ghost use Rattle.scenario.specs.Left.{first as first_of, others as others_of};
ghost use Rattle.transcript.specs.Ages.{StaysYoung};
ghost use Rattle.transcript.specs.Transcripts.{transcript};
ghost use Rattle.play.specs.Boards.{to_come, turns, Readied, CarriesOn, ReadsOn, pulled, pulled_bytes, left_behind, ShortLine};

use super::board::Board;
use super::course::{Course, Printed};
use super::printing::{switch_line, tick_line};
use output::fault::Fault;
use output::output::{OutputLine, WriteRefusal};
use scenario::place::Reader;

// Reads the next line of the text and carries it out; none at the end of the text.
fn carry_on(reader: &mut Reader<'_>, course: &mut Course) -> Result<Option<Printed>, Fault>
    ensures { CarriesOn result reader.old course.old reader.new course.new }
{
    let number = reader.line_number();
    // By map and transpose the proof stays open: behind a call it does not know what a closure wrote through a borrow.
    let Some(line) = reader.next_line()? else {
        return Ok(None);
    };
    course.carry_out(number, line).map(Some)
}

impl<'a> Board<'a> {
    // A board over a text: the whole transcript of the text is to come.
    pub fn new(text: &'a [u8]) -> Board<'a>
        ensures transcript { to_come result ≡ transcript text.now }
        ensures young { StaysYoung text.now }
    {
        let reader = Reader::new(text);
        Board {
            reader: Some(reader),
            course: Course::Opening,
            held: None,
            left: 0,
        }
    }

    // Runs a tick if there are some left, and gives the first line that it prints.
    fn tick(&mut self) -> Option<OutputLine>
        requires held { self.old.held ≡ None }
        ensures { Readied result self.old self.new }
    {
        self.left = self.left.checked_sub(1)?;
        let Some(answer) = self.course.tick() else {
            self.left = 0;
            return None;
        };
        let line = tick_line(answer);
        let Some(switch) = switch_line(answer) else {
            return Some(line);
        };
        self.held = Some(line);
        Some(switch)
    }

    // The next line, if it comes without reading on.
    fn ready(&mut self) -> Option<OutputLine>
        ensures { Readied result self.old self.new }
    {
        // By or_else the proof stays open, as in carry_on.
        if let Some(line) = self.held.take() {
            return Some(line);
        }
        self.tick()
    }

    // Reads on, if the text is not over.
    fn read_on(&mut self) -> Option<()>
        requires held { self.old.held ≡ None }
        requires left { self.old.left ≡ 0 }
        ensures { ReadsOn result self.old self.new }
    {
        let reader = self.reader.as_mut()?;
        match carry_on(reader, &mut self.course) {
            Ok(Some(printed)) => {
                self.held = printed.line;
                self.left = printed.left;
            }
            Ok(None) => self.reader = None,
            Err(fault) => {
                self.held = Some(OutputLine::Faulted(fault));
                self.reader = None;
            }
        }
        Some(())
    }

    // The next line of the transcript; none at the end.
    pub fn next_line(&mut self) -> Option<OutputLine>
        ensures line { result ≡ first_of (to_come self.old) }
        ensures rest { to_come self.new ≡ others_of (to_come self.old) }
    {
        loop {
            if let Some(line) = self.ready() {
                return Some(line);
            }
            self.read_on()?;
        }
    }

    // Writes the next line of the transcript at the start of the buffer, and answers its length; none at the end. A buffer under 40 bytes is refused, and the same line is still to come.
    pub fn pull(&mut self, out: &mut [u8]) -> Result<Option<usize>, WriteRefusal>
        ensures answer { result ≡ pulled (to_come self.old) out.old }
        ensures bytes { out.new ≡ pulled_bytes (to_come self.old) out.old }
        ensures rest { to_come self.new ≡ left_behind (to_come self.old) out.old }
        ensures same { elim result [ Ok n ↦ Unit {0} | Err e ↦ self.new ≡ self.old ] }
        ensures short { ShortLine result }
    {
        if out.len() < 40 {
            return Err(WriteRefusal::Short);
        }
        // By map and transpose the proof stays open, as in carry_on.
        let Some(line) = self.next_line() else {
            return Ok(None);
        };
        line.write(out).map(Some)
    }
}

// The lines of the transcript that are still to come.
impl Iterator for Board<'_> {
    type Item = OutputLine;

    ghost next_gives = { YieldsFirst to_come };

    ghost remaining = { item_count to_come };

    fn next(&mut self) -> Option<OutputLine> {
        self.next_line()
    }
}
