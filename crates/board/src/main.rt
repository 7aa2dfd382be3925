// Plays the scenario text on standard input, and prints its transcript.
#![tactic(auto)]

use play::board::Board;
use std::io;
use std::io::{BufWriter, Read, Write};

// One byte more than a text may have, so that a longer one is seen to be longer.
const MOST: u64 = 65_537;

fn read_text(rt: &HostRuntime) -> io::Result<Vec<u8>> {
    let mut text = Vec::new(rt.alloc());
    rt.stdin().take(MOST).read_to_end(&mut text)?;
    Ok(text)
}

fn print_transcript(text: &[u8], out: &mut impl Write) -> io::Result<()> {
    let mut board = Board::new(text);
    let mut line = [0u8; 40];
    while let Ok(Some(length)) = board.pull(&mut line) {
        out.write_all(&line[..length])?;
    }
    out.flush()
}

fn main(rt: HostRuntime) -> io::Result<()> {
    let text = read_text(&rt)?;
    let mut out = BufWriter::new(rt.alloc(), rt.stdout())?;
    print_transcript(&text, &mut out)
}
