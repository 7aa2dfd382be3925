ghost use Rattle.std.specs.Prelude.{◌≡◌, ◌<◌, ◌≤◌, [], ◌∷◌, length, Ok, Err, decimal};
ghost use Rattle.output.specs.Output.{refused_number, layer_letter, mode_letter, end_letter, closed, page, fault_words, line_of, written_length, written_bytes};

use super::fault::{Fault, Layer};
use super::line_buffer::LineBuffer;
use runs::answer::{Ending, Mode};
use tasks::units::Ticks;

// Why a line was not written.
#[derive(Clone, Copy, PartialEq, Eq, Debug)]
pub enum WriteRefusal {
    // the buffer is under 40 bytes
    Short,
}

// What a run prints.
#[derive(Clone, Copy, PartialEq, Eq, Debug)]
pub enum OutputLine {
    // an accepted arrival
    Arrived {
        clock: Ticks,
        task: u32,
    },
    // a refused one, with the refusal's number: any byte and no enum, so that `write` asks no more of its caller
    Refused {
        clock: Ticks,
        number: u8,
    },
    // before a tick that switches, with the mask of the dropped tasks
    Switched {
        clock: Ticks,
        dropped: u32,
    },
    // a tick, with the task that ran, if it was not idle, and how its job ended, if it did; the clock stands last, since the others lie beside the case's tag
    Ticked {
        task: Option<u32>,
        mode: Mode,
        ending: Option<Ending>,
        clock: Ticks,
    },
    Faulted(Fault),
}

// A line that is kept takes no more.
const _: () = prove!(size_of::<OutputLine>() == 24);

impl WriteRefusal {
    // The refusal's number, by a method as each refusal has it.
    pub fn number(self) -> u8
        ensures { result ≡ refused_number self }
    {
        match self {
            WriteRefusal::Short => 25,
        }
    }
}

impl Layer {
    // The layer's letter. A method, since `u8::from` would not say what the byte is.
    fn letter(self) -> u8
        ensures { result ≡ layer_letter self }
    {
        match self {
            Layer::Reader => b'r',
            Layer::Table => b't',
            Layer::Rule => b'u',
        }
    }
}

// The letters of a mode and of an ending are functions, since their types stand in another crate; `u8::from` would not say what the byte is.

fn mode_letter(mode: Mode) -> u8
    ensures { result ≡ mode_letter mode }
{
    match mode {
        Mode::Low => b'l',
        Mode::High => b'h',
    }
}

fn end_letter(ending: Option<Ending>) -> u8
    ensures { result ≡ end_letter ending }
{
    match ending {
        Some(Ending::Done) => b'd',
        Some(Ending::Limit) => b'c',
        Some(Ending::Short) => b's',
        None => b'-',
    }
}

// A clock, a letter and a number.
#[tactic(auto, using(crate::proofs::Widths::widths))]
fn put_event(line: &mut LineBuffer, clock: Ticks, letter: u8, number: u32)
    requires empty { line.old.len ≡ 0 }
    requires room { 40 ≤ length line.old.out.now }
    ensures same_buffer { line.new.out.ghost_name ≡ line.old.out.ghost_name }
    ensures behind { line.new.len ≡ length (closed (decimal clock.0 ∷ (letter ∷ []) ∷ decimal number ∷ [])) }
    ensures page { line.new.out.now ≡ page (closed (decimal clock.0 ∷ (letter ∷ []) ∷ decimal number ∷ [])) line.old.out.now }
    ensures short { line.new.len ≤ 40 }
{
    line.number(clock.0);
    line.byte(b' ');
    line.byte(letter);
    line.byte(b' ');
    line.number(u64::from(number));
    line.byte(b'\n');
}

// A tick. An idle one is written with task 0.
#[tactic(auto, using(crate::proofs::Widths::widths))]
fn put_tick(
    line: &mut LineBuffer,
    clock: Ticks,
    task: Option<u32>,
    mode: Mode,
    ending: Option<Ending>,
)
    requires empty { line.old.len ≡ 0 }
    requires room { 40 ≤ length line.old.out.now }
    ensures same_buffer { line.new.out.ghost_name ≡ line.old.out.ghost_name }
    ensures behind { line.new.len ≡ length (line_of (OutputLine.Ticked task mode ending clock)) }
    ensures page { line.new.out.now ≡ page (line_of (OutputLine.Ticked task mode ending clock)) line.old.out.now }
    ensures short { line.new.len ≤ 40 }
{
    // before the digits, so that the compiler can join them with what chose the mode and the ending
    let mode = mode_letter(mode);
    let ending = end_letter(ending);
    line.number(clock.0);
    line.byte(b' ');
    line.number(u64::from(task.unwrap_or(0)));
    line.byte(b' ');
    line.byte(mode);
    line.byte(b' ');
    line.byte(ending);
    line.byte(b'\n');
}

#[tactic(auto, using(crate::proofs::Widths::widths))]
fn put_fault(line: &mut LineBuffer, fault: Fault)
    requires empty { line.old.len ≡ 0 }
    requires room { 40 ≤ length line.old.out.now }
    ensures same_buffer { line.new.out.ghost_name ≡ line.old.out.ghost_name }
    ensures behind { line.new.len ≡ length (closed (fault_words fault)) }
    ensures page { line.new.out.now ≡ page (closed (fault_words fault)) line.old.out.now }
    ensures short { line.new.len ≤ 40 }
{
    line.word(b"fault ");
    line.number(u64::from(fault.line));
    line.byte(b' ');
    line.byte(fault.layer.letter());
    line.byte(b' ');
    line.number(u64::from(fault.number));
    line.byte(b'\n');
}

impl OutputLine {
    // Makes the line at the front of a buffer.
    fn put(&self, line: &mut LineBuffer)
        requires empty { line.old.len ≡ 0 }
        requires room { 40 ≤ length line.old.out.now }
        ensures same_buffer { line.new.out.ghost_name ≡ line.old.out.ghost_name }
        ensures behind { line.new.len ≡ length (line_of self.now) }
        ensures page { line.new.out.now ≡ page (line_of self.now) line.old.out.now }
        ensures short { line.new.len ≤ 40 }
    {
        match *self {
            OutputLine::Arrived { clock, task } => put_event(line, clock, b'A', task),
            OutputLine::Refused { clock, number } => put_event(
                line,
                clock,
                b'!',
                u32::from(number),
            ),
            OutputLine::Switched { clock, dropped } => put_event(line, clock, b'X', dropped),
            OutputLine::Ticked {
                clock,
                task,
                mode,
                ending,
            } => put_tick(line, clock, task, mode, ending),
            OutputLine::Faulted(fault) => put_fault(line, fault),
        }
    }

    // Writes the line at the start of the buffer, and answers its length. A buffer under 40 bytes is refused and stays as it was.
    pub fn write(&self, out: &mut [u8]) -> Result<usize, WriteRefusal>
        ensures length { result ≡ written_length self.now out.old }
        ensures bytes { out.new ≡ written_bytes self.now out.old }
        ensures short { elim result [ Ok n ↦ n ≤ 40 | Err e ↦ length out.old < 40 ] }
    {
        if out.len() < 40 {
            return Err(WriteRefusal::Short);
        }
        let mut line = LineBuffer::new(out);
        self.put(&mut line);
        Ok(line.len())
    }
}
