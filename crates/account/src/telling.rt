use super::example::{NEEDS, TICKS};
use budget::shared::Shared;
use dispatch::dispatcher::Dispatcher;
use needs::needs::Needs;
use order::by_number::ByNumber;
use order::slots::Slots;
use runs::answer::{Answer, Ending, Mode};
use std::io;
use table::table::Table;
use tasks::units::Ticks;

type Line<'o> = Dispatcher<'o, Shared, ByNumber>;

// Three jobs arrive at clock 0, and six ticks pass.
pub fn print_run(rt: &HostRuntime, table: &Table) -> io::Result<()> {
    let mut line = Dispatcher::new(table, Shared::new(table), &ByNumber);
    let mut needs = Needs::new();
    println!(rt; "Table E under the shared budget")?;
    for (task, need) in (1..).zip(NEEDS) {
        print_arrival(rt, &mut line, task, need)?;
        needs.note(task, need);
    }
    for _ in 0..TICKS {
        print_tick(rt, &mut line, &needs)?;
    }
    println!(rt; "")
}

fn print_arrival(rt: &HostRuntime, line: &mut Line<'_>, task: u32, need: Ticks) -> io::Result<()> {
    let clock = line.clock();
    match line.arrive(task) {
        Ok(()) => println!(rt;
            "  Clock {clock}: a job of task {task} arrives. Ticks that it needs: {need}."
        ),
        Err(refusal) => println!(rt;
            "  Clock {clock}: a job of task {task} is refused by number {}.",
            refusal.number()
        ),
    }
}

fn print_tick(rt: &HostRuntime, line: &mut Line<'_>, needs: &Needs) -> io::Result<()> {
    let mark = needs.mark(line);
    match line.tick(mark) {
        Ok(answer) => print_answer(rt, answer),
        Err(refusal) => println!(rt; "  The tick is refused by number {}.", refusal.number()),
    }
}

fn print_answer(rt: &HostRuntime, answer: Answer) -> io::Result<()> {
    let clock = answer.clock;
    if answer.switched {
        println!(rt;
            "  Clock {clock}: the budget is used up, so the dispatcher switches to high mode and sheds low work."
        )?;
        print_dropped(rt, answer.dropped)?;
    }
    let Some(task) = answer.task else {
        return println!(rt; "  Clock {clock}: nothing to do.");
    };
    let mode = match answer.mode {
        Mode::Low => "low",
        Mode::High => "high",
    };
    let ending = match answer.ending {
        Some(Ending::Done) => ", and its job is done",
        Some(Ending::Limit) => ", and its job ends at its worst",
        Some(Ending::Short) => ", and its job ends with its assured part",
        None => "",
    };
    println!(rt; "  Clock {clock}: task {task} runs in {mode} mode{ending}.")
}

fn print_dropped(rt: &HostRuntime, dropped: u32) -> io::Result<()> {
    for slot in Slots::of(dropped) {
        println!(rt; "    The job of task {} is dropped.", slot + 1)?;
    }
    Ok(())
}
