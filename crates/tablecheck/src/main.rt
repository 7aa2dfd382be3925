// Checks five tables and prints an account of each.
#![tactic(auto)]

mod account;

use account::print_account;
use std::io;
use table::draft::Draft;
use tasks::task::{Factor, Task};
use tasks::units::{Shares, Ticks};

// Table E and four drafts that differ from it in one number.
fn main(rt: HostRuntime) -> io::Result<()> {
    let low = Task::low(Ticks(10), Ticks(5), Ticks(0));
    let high = Task::high(Ticks(10), Ticks(4));
    let table_e = Draft {
        scale: Shares(10),
        total: Shares(2),
        factor: Factor { p: 2, q: 5 },
        tasks: &[low, high, high],
    };
    print_account(&rt, "Table E", &table_e)?;
    let larger_total = Draft {
        total: Shares(3),
        ..table_e
    };
    print_account(&rt, "Table E with total 3", &larger_total)?;
    let larger_worst = Draft {
        tasks: &[low, high, Task::high(Ticks(10), Ticks(5))],
        ..table_e
    };
    print_account(&rt, "Table E with worst 5 for task 3", &larger_worst)?;
    let broken_deadline = Draft {
        factor: Factor { p: 1, q: 4 },
        ..table_e
    };
    print_account(&rt, "Table E with factor 1/4", &broken_deadline)?;
    let odd_period = Draft {
        tasks: &[low, Task::high(Ticks(7), Ticks(4)), high],
        ..table_e
    };
    print_account(&rt, "Table E with period 7 for task 2", &odd_period)
}
