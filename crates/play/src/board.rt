use super::course::Course;
use output::output::OutputLine;
use scenario::place::Reader;

// The transcript of a scenario text, line by line.
#[derive(Drop)]
pub struct Board<'a> {
    // none once the text came to its end or to a fault
    pub(crate) reader: Option<Reader<'a>>,
    pub(crate) course: Course,
    // a line that was made and is still to be pulled
    pub(crate) held: Option<OutputLine>,
    // the ticks of the last R line that are still to run
    pub(crate) left: u32,
}
