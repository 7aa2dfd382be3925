use table::draft::Draft;
use table::table::Table;
use tasks::refusal::TableRefusal;
use tasks::task::{Factor, Task};
use tasks::units::{Shares, Ticks};

// How many ticks play.
pub const TICKS: usize = 6;

// The ticks that each task's job needs.
pub const NEEDS: [Ticks; 3] = [Ticks(2), Ticks(1), Ticks(2)];

// Table E: one low task that draws, two high ones that move things.
pub fn table_e() -> Result<Table, TableRefusal> {
    let high = Task::high(Ticks(10), Ticks(4));
    Table::accept(&Draft {
        scale: Shares(10),
        total: Shares(2),
        factor: Factor { p: 2, q: 5 },
        tasks: &[Task::low(Ticks(10), Ticks(5), Ticks(0)), high, high],
    })
}
