use budget::fixed::Fixed;
use order::by_number::ByNumber;
use runs::call::{Call, Mark};
use std::io;
use table::table::Table;
use tasks::units::Ticks;
use trials::compare::compare;

const DONE: Call = Call::Tick(Mark::Done);

const GOES_ON: Call = Call::Tick(Mark::NotDone);

// The run above, and one of task 2 alone with a need of two ticks.
pub fn print_comparisons(rt: &HostRuntime, table: &Table) -> io::Result<()> {
    println!(rt; "The shared budget of 2 beside fixed budgets of 0, 1 and 1, on the same calls")?;
    let run = [
        Call::Arrive(1),
        Call::Arrive(2),
        Call::Arrive(3),
        DONE,
        GOES_ON,
        DONE,
        GOES_ON,
        GOES_ON,
        GOES_ON,
    ];
    print_comparison(rt, table, "The run above", &run)?;
    let alone = [
        Call::Arrive(2),
        GOES_ON,
        DONE,
        GOES_ON,
        GOES_ON,
        GOES_ON,
        GOES_ON,
    ];
    print_comparison(rt, table, "Task 2 alone, which needs two ticks", &alone)
}

fn ticks_in(calls: &[Call]) -> usize {
    calls
        .iter()
        .filter(|call| matches!(call, Call::Tick(_)))
        .count()
}

fn print_comparison(
    rt: &HostRuntime,
    table: &Table,
    title: &str,
    calls: &[Call],
) -> io::Result<()> {
    let fixed = match Fixed::new(table, &[Ticks(0), Ticks(1), Ticks(1)]) {
        Ok(rule) => rule,
        Err(refusal) => return println!(rt;
            "  The budgets are refused by number {}.",
            refusal.number()
        ),
    };
    match compare(table, &ByNumber, fixed, calls) {
        Ok(counts) => println!(rt;
            "  {title}: of {} ticks, {} come before the first switch under the shared budget, and {} under the fixed ones.",
            ticks_in(calls),
            counts.shared,
            counts.other
        ),
        Err(refusal) => println!(rt; "  {title}: refused by number {}.", refusal.number()),
    }
}
