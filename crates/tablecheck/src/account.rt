use budget::rule::Metered;
use budget::shared::Shared;
use std::io;
use table::draft::Draft;
use table::figures::figures;
use table::table::Table;
use tasks::refusal::TableRefusal;
use tasks::task::{Comparison, Criticality, Level, Task};

// The table, its figures, its tests and the verdict.
pub fn print_account(rt: &HostRuntime, title: &str, draft: &Draft<'_>) -> io::Result<()> {
    println!(rt; "{title}")?;
    print_table(rt, draft)?;
    print_figures(rt, draft)?;
    print_tests(rt, draft)?;
    print_verdict(rt, draft)?;
    println!(rt; "")
}

fn print_table(rt: &HostRuntime, draft: &Draft<'_>) -> io::Result<()> {
    println!(rt; "  The whole processor is {} shares.", draft.scale)?;
    println!(rt; "  High tasks share a budget of {} shares.", draft.total)?;
    println!(rt;
        "  A virtual deadline is {}/{} of the period.",
        draft.factor.p, draft.factor.q
    )?;
    for (i, task) in draft.tasks.iter().enumerate() {
        print_task(rt, i + 1, task)?;
    }
    Ok(())
}

fn print_task(rt: &HostRuntime, number: usize, task: &Task) -> io::Result<()> {
    let period = task.period;
    let worst = task.worst;
    match task.criticality {
        Criticality::High => println!(rt;
            "  Task {number} is high: at most one job in {period} ticks, of at most {worst} ticks."
        ),
        Criticality::Low { assured } => {
            println!(rt;
                "  Task {number} is low: at most one job in {period} ticks, of at most {worst} ticks, {} of them assured.",
                assured
            )
        },
    }
}

fn print_figures(rt: &HostRuntime, draft: &Draft<'_>) -> io::Result<()> {
    match figures(draft.scale, draft.tasks) {
        Ok(figures) => println!(rt;
            "  Shares needed: G = {} for the assured parts of low tasks, S = {} for the rest of their work, K = {} for high tasks at their worst.",
            figures.assured, figures.optional, figures.high
        ),
        Err(refusal) => println!(rt;
            "  Shares needed: not known, because of refusal {}.",
            refusal.number()
        ),
    }
}

fn print_tests(rt: &HostRuntime, draft: &Draft<'_>) -> io::Result<()> {
    match draft.tests() {
        Ok(tests) => {
            print_test(
                rt,
                "Low test, while high jobs keep within the budget",
                tests.low,
            )?;
            print_test(
                rt,
                "High test, once a high job needs more than the budget",
                tests.high,
            )
        },
        Err(refusal) => println!(rt;
            "  Tests: not made, because of refusal {}.",
            refusal.number()
        ),
    }
}

fn print_test(rt: &HostRuntime, name: &str, test: Comparison) -> io::Result<()> {
    let demand = test.demand;
    let supply = test.supply;
    if test.passes() {
        println!(rt;
            "  {name}: the tasks ask for {demand} and the processor has {supply}. It passes."
        )
    } else {
        println!(rt;
            "  {name}: the tasks ask for {demand} and the processor has {supply}. It fails."
        )
    }
}

fn print_verdict(rt: &HostRuntime, draft: &Draft<'_>) -> io::Result<()> {
    match Table::accept(draft) {
        Ok(table) => {
            println!(rt; "  Verdict: accepted.")?;
            print_budgets(rt, &table)
        },
        Err(refusal) => print_refusal(rt, refusal),
    }
}

// What the shared rule grants each high task while the others have had nothing.
fn print_budgets(rt: &HostRuntime, table: &Table) -> io::Result<()> {
    let rule = Shared::new(table);
    for task in 1..=table.count() {
        if table.level(task) == Some(Level::High) {
            println!(rt;
                "  At rest the shared budget of task {task} is {} ticks.",
                rule.budget(task)
            )?;
        }
    }
    Ok(())
}

fn print_refusal(rt: &HostRuntime, refusal: TableRefusal) -> io::Result<()> {
    let number = refusal.number();
    match refusal.task() {
        Some(task) => println!(rt;
            "  Verdict: refused by number {number} at task {task}. {refusal}"
        ),
        None => println!(rt; "  Verdict: refused by number {number}. {refusal}"),
    }
}
