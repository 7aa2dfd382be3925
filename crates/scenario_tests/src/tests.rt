use output::decimal::write_number;
use output::fault::{Fault, Layer};
use output::output::OutputLine;
use runs::answer::{Ending, Mode};
use scenario::reader::check_text;
use std::test::Fail;
use tasks::units::Ticks;

// A text with the number and the line of its fault, if it has one.
#[derive(Clone, Copy)]
struct Case {
    text: &'static [u8],
    fault: Option<(u8, u32)>,
}

static CASES: [Case; 33] = [
    // 33 tasks are the table's business, not the reader's
    Case {
        text: b"S 10 2 2 5\nH 9 9\nH 9 9\nH 9 9\nH 9 9\nH 9 9\nH 9 9\nH 9 9\nH 9 9\nH 9 9\nH 9 9\nH 9 9\nH 9 9\nH 9 9\nH 9 9\nH 9 9\nH 9 9\nH 9 9\nH 9 9\nH 9 9\nH 9 9\nH 9 9\nH 9 9\nH 9 9\nH 9 9\nH 9 9\nH 9 9\nH 9 9\nH 9 9\nH 9 9\nH 9 9\nH 9 9\nH 9 9\nH 9 9\nM",
        fault: None,
    },
    Case {
        text: b"S 10 2 2 5\nH 9 9\nH 9 9\nH 9 9\nH 9 9\nH 9 9\nH 9 9\nH 9 9\nH 9 9\nH 9 9\nH 9 9\nH 9 9\nH 9 9\nH 9 9\nH 9 9\nH 9 9\nH 9 9\nH 9 9\nH 9 9\nH 9 9\nH 9 9\nH 9 9\nH 9 9\nH 9 9\nH 9 9\nH 9 9\nH 9 9\nH 9 9\nH 9 9\nH 9 9\nH 9 9\nH 9 9\nH 9 9\nH 9 9\nF 0 0 0 0 0 0 0 0 0 0 0 0 0 0 0 0 0 0 0 0 0 0 0 0 0 0 0 0 0 0 0 0 0",
        fault: Some((21, 35)),
    },
    Case {
        text: b"",
        fault: Some((23, 1)),
    },
    Case {
        text: b"\n",
        fault: Some((20, 1)),
    },
    Case {
        text: b" ",
        fault: Some((20, 1)),
    },
    Case {
        text: b"SS 10 2 2 5",
        fault: Some((20, 1)),
    },
    Case {
        text: b"M x",
        fault: Some((23, 1)),
    },
    Case {
        text: b"S 10 2 2",
        fault: Some((21, 1)),
    },
    Case {
        text: b"S 10 2 2 5 6",
        fault: Some((21, 1)),
    },
    Case {
        text: b"S 1000000000 2 2 5",
        fault: Some((22, 1)),
    },
    Case {
        text: b"S 01 2 2 5",
        fault: Some((22, 1)),
    },
    Case {
        text: b"S 10 2 2 5",
        fault: Some((23, 2)),
    },
    Case {
        text: b"S 10 2 2 5\n",
        fault: Some((23, 2)),
    },
    Case {
        text: b"S 10 2 2 5\nS 10 2 2 5\nM",
        fault: Some((23, 2)),
    },
    Case {
        text: b"S 10 2 2 5\nL 10 5\nM",
        fault: Some((21, 2)),
    },
    Case {
        text: b"S 10 2 2 5\nM \n",
        fault: Some((21, 2)),
    },
    Case {
        text: b"S 10 2 2 5\nF",
        fault: Some((21, 2)),
    },
    Case {
        text: b"S 10 2 2 5\nF ",
        fault: Some((22, 2)),
    },
    Case {
        text: b"S 10 2 2 5\nM\n\nR 1",
        fault: Some((20, 3)),
    },
    Case {
        text: b"S 10 2 2 5\nM\nR 1 ",
        fault: Some((21, 3)),
    },
    Case {
        text: b"S 10 2 2 5\nM\nR 1\r\n",
        fault: Some((22, 3)),
    },
    Case {
        text: b"S 10 2 2 5\nM\nR 0",
        fault: Some((22, 3)),
    },
    Case {
        text: b"S 10 2 2 5\nM\nR 10001",
        fault: Some((22, 3)),
    },
    Case {
        text: b"S 10 2 2 5\nM\nA 1 0",
        fault: Some((22, 3)),
    },
    Case {
        text: b"S 10 2 2 5\nM\nA 1 100001",
        fault: Some((22, 3)),
    },
    Case {
        text: b"S 10 2 2 5\nM\nH 10 4",
        fault: Some((23, 3)),
    },
    Case {
        text: b"S 10 2 2 5\nM\nC 1\nC 1",
        fault: Some((23, 4)),
    },
    Case {
        text: b"S 10 2 2 5\nM\nR 1\nC 1",
        fault: Some((23, 4)),
    },
    Case {
        text: b"S 10 2 2 5\nM",
        fault: None,
    },
    Case {
        text: b"S 10 2 2 5\nL 10 5 0\nH 10 4\nH 10 4\nM\nA 1 2\nA 2 1\nA 3 2\nR 6\n",
        fault: None,
    },
    Case {
        text: b"S 10 2 2 5\nH 10 4\nF 0 1 1\nC 3 999999999\nA 0 100000\nR 10000",
        fault: None,
    },
    Case {
        text: b"S 1 1 1 1\nF 1 2 3 4 5 6 7 8 9 10 11 12 13 14 15 16 17 18 19 20 21 22 23 24 25 26 27 28 29 30 31 32",
        fault: None,
    },
    Case {
        text: b"S 1 1 1 1\nF 1 2 3 4 5 6 7 8 9 10 11 12 13 14 15 16 17 18 19 20 21 22 23 24 25 26 27 28 29 30 31 32 33",
        fault: Some((21, 2)),
    },
];

fn fault_of(text: &[u8]) -> Option<(u8, u32)> {
    let fault = check_text(text).err()?;
    Some((fault.number, fault.line))
}

#[test]
fn texts(rt: HostRuntime) {
    for case in &CASES {
        assert_eq!(rt; fault_of(case.text), case.fault);
    }
}

#[test]
fn lengths(rt: HostRuntime) {
    let text = [b'\n'; 65_537];
    assert_eq!(rt; fault_of(&text), Some((24, 0)));
    assert_eq!(rt; fault_of(&text[0..65_536]), Some((20, 1)));
}

// The fault of a text of this byte.
fn alone(byte: u8) -> (u8, u32) {
    match byte as char {
        'S' => (21, 1),
        'H' | 'L' | 'M' | 'F' | 'C' | 'A' | 'R' => (23, 1),
        _ => (20, 1),
    }
}

// The fault of an S line that has this byte behind its first digit.
fn behind(byte: u8) -> (u8, u32) {
    match byte as char {
        '0'..='9' => (23, 2),
        ' ' | '\n' => (21, 1),
        _ => (22, 1),
    }
}

#[test]
fn all_bytes(rt: HostRuntime) {
    for byte in 0..=255u8 {
        let mut text = *b"S 10 1 1 1";
        text[3] = byte;
        assert_eq!(rt; fault_of(&text[3..4]), Some(alone(byte)));
        assert_eq!(rt; fault_of(&text), Some(behind(byte)));
    }
}

// What a line prints into 40 bytes that were all '#'.
#[derive(Clone, Copy)]
struct Print {
    line: OutputLine,
    text: [u8; 40],
}

static PRINTS: [Print; 6] = [
    Print {
        line: OutputLine::Arrived {
            clock: Ticks(0),
            task: 1,
        },
        text: *b"0 A 1\n##################################",
    },
    Print {
        line: OutputLine::Refused {
            clock: Ticks(9),
            number: 11,
        },
        text: *b"9 ! 11\n#################################",
    },
    Print {
        line: OutputLine::Switched {
            clock: Ticks(20),
            dropped: 4_294_967_295,
        },
        text: *b"20 X 4294967295\n########################",
    },
    Print {
        line: OutputLine::Ticked {
            clock: Ticks(2),
            task: Some(3),
            mode: Mode::High,
            ending: Some(Ending::Done),
        },
        text: *b"2 3 h d\n################################",
    },
    Print {
        line: OutputLine::Ticked {
            clock: Ticks(18_446_744_073_709_551_615),
            task: None,
            mode: Mode::Low,
            ending: None,
        },
        text: *b"18446744073709551615 0 l -\n#############",
    },
    Print {
        line: OutputLine::Faulted(Fault {
            line: 4,
            layer: Layer::Rule,
            number: 17,
        }),
        text: *b"fault 4 u 17\n###########################",
    },
];

#[test]
fn printed(rt: HostRuntime) -> Result<(), Fail> {
    for print in &PRINTS {
        let mut out = [b'#'; 40];
        let length = print.line.write(&mut out)?;
        assert!(rt; length < 40 && print.text[length] == b'#');
        assert_eq!(rt; &out, &print.text);
    }
    Ok(())
}

#[test]
fn short_buffers(rt: HostRuntime) {
    let mut out = [b'#'; 39];
    let written = PRINTS[0].line.write(&mut out);
    assert_eq!(rt; written.map_err(|refusal| refusal.number()), Err(25));
    assert_eq!(rt; &out, &[b'#'; 39]);
    assert_eq!(rt; write_number(1_234, &mut out, 36), None);
    assert_eq!(rt; write_number(1_234, &mut out, 35), Some(39));
    assert_eq!(rt; &out[34..39], b"#1234".as_slice());
}
