// Plays table E tick by tick and tells what happens, and then compares the shared budget with fixed budgets on the same calls.
#![tactic(auto)]

mod comparison;
mod example;
mod telling;

use comparison::print_comparisons;
use example::table_e;
use std::io;
use telling::print_run;

fn main(rt: HostRuntime) -> io::Result<()> {
    match table_e() {
        Ok(table) => {
            print_run(&rt, &table)?;
            print_comparisons(&rt, &table)
        }
        Err(refusal) => println!(rt; "The table is refused by number {}.", refusal.number()),
    }
}
