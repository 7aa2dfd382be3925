// Plays every example text and compares each line with the expected transcript.
#![tactic(auto)]

use play::board::Board;
use std::{fs, io};

static NAMES: [&str; 20] = [
    "table_e",
    "table_e_fixed",
    "press_line",
    "press_line_fixed",
    "filler",
    "conveyor",
    "ceiling_early_switch",
    "assured_survives",
    "refused_arrivals",
    "limit",
    "fault_letter",
    "fault_order",
    "fault_count",
    "fault_number",
    "fault_too_early_end",
    "fault_table_period",
    "fault_low_test",
    "fault_budgets",
    "fault_ceiling",
    "fault_after_run",
];

// The number of a line that is not the expected one.
#[derive(Clone, Copy, Debug)]
struct Difference {
    line: u64,
}

// How many lines the transcript has, if they are the expected ones.
fn compare(text: &[u8], expected: &[u8]) -> Result<u64, Difference> {
    let mut board = Board::new(text);
    let mut rest = expected;
    let mut line = [0u8; 40];
    // Counted by hand: a `for` over numbers would need a `break`, and hide that the loop ends with the transcript.
    let mut lines: u64 = 0;
    while let Ok(Some(length)) = board.pull(&mut line) {
        lines = lines.saturating_add(1);
        rest = rest
            .strip_prefix(&line[..length])
            .ok_or(Difference { line: lines })?;
    }
    if rest.is_empty() {
        Ok(lines)
    } else {
        Err(Difference {
            line: lines.saturating_add(1),
        })
    }
}

fn check(rt: &HostRuntime, name: &str) -> io::Result<()> {
    let text = fs::read(rt, format!(in rt.alloc(); "{name}.txt")?)?;
    let expected = fs::read(rt, format!(in rt.alloc(); "{name}.out")?)?;
    match compare(&text, &expected) {
        Ok(lines) => println!(rt; "{name}: all {lines} lines are as expected"),
        Err(Difference { line }) => println!(rt; "{name}: line {line} is not the expected one"),
    }
}

fn main(rt: HostRuntime) -> io::Result<()> {
    for name in &NAMES {
        check(&rt, name)?;
    }
    Ok(())
}
