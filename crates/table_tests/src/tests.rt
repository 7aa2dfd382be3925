use table::draft::Draft;
use table::figures::figures;
use table::table::Table;
use tasks::refusal::TableRefusal;
use tasks::task::{Factor, Task};
use tasks::units::{Shares, Ticks};

// A refusal's number, and the task that it names.
type Reason = (u8, Option<u32>);

// Whether a draft passes, or else why not.
type Answer = Result<(), Reason>;

const ACCEPTED: Answer = Ok(());

fn told(refusal: TableRefusal) -> Reason {
    (refusal.number(), refusal.task())
}

fn answer(scale: Shares, total: Shares, factor: (u32, u32), tasks: &[Task]) -> Answer {
    let (p, q) = factor;
    let draft = Draft {
        scale,
        total,
        factor: Factor { p, q },
        tasks,
    };
    Table::accept(&draft).map(|_| ()).map_err(told)
}

fn figures_answer(scale: Shares, tasks: &[Task]) -> Answer {
    figures(scale, tasks).map(|_| ()).map_err(told)
}

#[test]
fn counts(rt: HostRuntime) {
    let tasks = [Task::high(Ticks(32), Ticks(1)); 33];
    assert_eq!(rt;
        answer(Shares(32), Shares(0), (1, 1), &tasks[0..0]),
        Err((1, None))
    );
    assert_eq!(rt;
        answer(Shares(32), Shares(0), (1, 1), &tasks[0..1]),
        ACCEPTED
    );
    assert_eq!(rt;
        answer(Shares(32), Shares(0), (1, 1), &tasks[0..32]),
        ACCEPTED
    );
    assert_eq!(rt;
        answer(Shares(32), Shares(0), (1, 1), &tasks),
        Err((1, None))
    );
    assert_eq!(rt;
        answer(Shares(0), Shares(u64::MAX), (0, 0), &tasks),
        Err((1, None))
    );
}

// Scale, total and factor at their edges, the period of one high task of worst 1, and the answer.
const TABLES: [(u64, u64, (u32, u32), u64, Answer); 23] = [
    (0, 0, (1, 1), 1, Err((2, None))),
    (1, 0, (1, 1), 1, ACCEPTED),
    (1_000_000, 0, (1, 1), 1, ACCEPTED),
    (1_000_001, 0, (1, 1), 1, Err((2, None))),
    (u64::MAX, 0, (1, 1), 1, Err((2, None))),
    (1_000, 0, (0, 0), 1_000, Err((3, None))),
    (1_000, 0, (1, 0), 1_000, Err((3, None))),
    (1_000, 0, (0, 1), 1_000, Err((3, None))),
    (1_000, 0, (1, 1), 1_000, ACCEPTED),
    (1_000, 0, (2, 1), 1_000, Err((3, None))),
    (1_000, 0, (u32::MAX, 1), 1_000, Err((3, None))),
    (1_000, 0, (0, 1_000), 1_000, Err((3, None))),
    (1_000, 0, (1, 1_000), 1_000, ACCEPTED),
    (1_000, 0, (1_000, 1_000), 1_000, ACCEPTED),
    (1_000, 0, (1_001, 1_000), 1_000, Err((3, None))),
    (1_000, 0, (1, 1_001), 1_000, Err((3, None))),
    (1_000, 0, (u32::MAX, u32::MAX), 1_000, Err((3, None))),
    (1_000_000, 1, (1, 1), 1, ACCEPTED),
    (1_000_000, 1_000_000, (1, 1), 1, ACCEPTED),
    (1_000_000, 1_000_001, (1, 1), 1, Err((4, None))),
    (1_000_000, u64::MAX, (1, 1), 1, Err((4, None))),
    (1, 1, (1, 1), 1, ACCEPTED),
    (1, 2, (1, 1), 1, Err((8, None))),
];

#[test]
fn edges_of_a_table(rt: HostRuntime) {
    for (scale, total, factor, period, want) in TABLES {
        let got = answer(
            Shares(scale),
            Shares(total),
            factor,
            &[Task::high(Ticks(period), Ticks(1))],
        );
        assert_eq!(rt; (scale, total, factor, got), (scale, total, factor, want));
    }
}

// Scale, factor, period and worst of a high task that stands second, and the answer.
const HIGH_TASKS: [(u64, (u32, u32), u64, u64, Answer); 14] = [
    (1_000, (1, 1), 0, 1, Err((5, Some(2)))),
    (1_000, (1, 1), 1, 1, Err((9, None))),
    (1_000, (1, 1), 3, 1, Err((5, Some(2)))),
    (100_000, (1, 1), 100_000, 1, ACCEPTED),
    (1_000, (1, 1), u64::MAX, 1, Err((5, Some(2)))),
    (1_000, (1, 2), 2, 1, ACCEPTED),
    (1_000, (1, 2), 5, 1, Err((6, Some(2)))),
    (1_000, (999, 1_000), 1_000, 1, ACCEPTED),
    (1_000, (999, 1_000), 500, 1, Err((6, Some(2)))),
    (1_000, (1, 1), 10, 0, Err((7, Some(2)))),
    (1_000, (1, 1), 10, 1, ACCEPTED),
    (1_000, (1, 1), 10, 10, Err((9, None))),
    (1_000, (1, 1), 10, 11, Err((7, Some(2)))),
    (1_000, (1, 1), 10, u64::MAX, Err((7, Some(2)))),
];

// Worst and assured part of a low task of period 10, and the answer.
const LOW_TASKS: [(u64, u64, Answer); 9] = [
    (0, 0, Err((7, Some(2)))),
    (1, 0, ACCEPTED),
    (9, 0, ACCEPTED),
    (9, 1, ACCEPTED),
    (9, 9, ACCEPTED),
    (9, 10, Err((7, Some(2)))),
    (9, u64::MAX, Err((7, Some(2)))),
    (11, 1, Err((7, Some(2)))),
    (u64::MAX, 1, Err((7, Some(2)))),
];

#[test]
fn edges_of_a_task(rt: HostRuntime) {
    for (scale, factor, period, worst, want) in HIGH_TASKS {
        let got = answer(
            Shares(scale),
            Shares(0),
            factor,
            &[
                Task::high(Ticks(1_000), Ticks(1)),
                Task::high(Ticks(period), Ticks(worst)),
            ],
        );
        assert_eq!(rt; (scale, period, worst, got), (scale, period, worst, want));
    }
    for (worst, assured, want) in LOW_TASKS {
        let got = answer(
            Shares(1_000),
            Shares(0),
            (1, 1),
            &[
                Task::high(Ticks(1_000), Ticks(1)),
                Task::low(Ticks(10), Ticks(worst), Ticks(assured)),
            ],
        );
        assert_eq!(rt; (worst, assured, got), (worst, assured, want));
    }
    // a period above the limit that divides the scale
    assert_eq!(rt;
        answer(
            Shares(900_009),
            Shares(0),
            (1, 1),
            &[Task::high(Ticks(100_001), Ticks(1))],
        ),
        Err((5, Some(1)))
    );
}

// Total, assured part of the low task, worst of the last task, and the answer: both tests at equality and above it.
const TESTS: [(u64, u64, u64, Answer); 5] = [
    (2, 0, 4, ACCEPTED),
    (3, 0, 4, Err((8, None))),
    (2, 0, 5, Err((9, None))),
    (1, 1, 4, Err((9, None))),
    (2, 1, 4, Err((8, None))),
];

#[test]
fn edges_of_the_tests(rt: HostRuntime) {
    for (total, assured, worst, want) in TESTS {
        let got = answer(
            Shares(10),
            Shares(total),
            (2, 5),
            &[
                Task::low(Ticks(10), Ticks(5), Ticks(assured)),
                Task::high(Ticks(10), Ticks(4)),
                Task::high(Ticks(10), Ticks(worst)),
            ],
        );
        assert_eq!(rt; (total, assured, worst, got), (total, assured, worst, want));
    }
}

// Scale, total, factor, period and worst of three high tasks, and the answer: the first of the refusals that apply.
const ORDER: [(u64, u64, (u32, u32), [(u64, u64); 3], Reason); 10] = [
    (0, u64::MAX, (0, 0), [(0, 0), (0, 0), (0, 0)], (2, None)),
    (10, u64::MAX, (0, 0), [(0, 0), (0, 0), (0, 0)], (3, None)),
    (10, u64::MAX, (1, 2), [(0, 0), (0, 0), (0, 0)], (4, None)),
    (10, 10, (1, 2), [(3, 0), (3, 0), (0, 0)], (5, Some(1))),
    (10, 10, (1, 2), [(5, 0), (3, 0), (0, 0)], (6, Some(1))),
    (10, 10, (1, 2), [(10, 1), (10, 0), (3, 1)], (7, Some(2))),
    (10, 10, (1, 2), [(10, 1), (10, 1), (3, 0)], (5, Some(3))),
    (10, 10, (1, 1), [(10, 6), (10, 6), (10, 11)], (7, Some(3))),
    (10, 11, (1, 1), [(10, 6), (10, 6), (10, 1)], (8, None)),
    (10, 10, (1, 1), [(10, 6), (10, 6), (10, 1)], (9, None)),
];

#[test]
fn order_of_refusals(rt: HostRuntime) {
    for (scale, total, factor, [a, b, c], want) in ORDER {
        let got = answer(
            Shares(scale),
            Shares(total),
            factor,
            &[
                Task::high(Ticks(a.0), Ticks(a.1)),
                Task::high(Ticks(b.0), Ticks(b.1)),
                Task::high(Ticks(c.0), Ticks(c.1)),
            ],
        );
        assert_eq!(rt;
            (scale, total, factor, got),
            (scale, total, factor, Err(want))
        );
    }
}

// The figures ask for 1, 2, 5 and 7 only.
#[test]
fn figures_of_tasks(rt: HostRuntime) {
    assert_eq!(rt; figures_answer(Shares(0), &[]), Err((1, None)));
    assert_eq!(rt;
        figures_answer(Shares(0), &[Task::high(Ticks(0), Ticks(0))]),
        Err((2, None))
    );
    assert_eq!(rt;
        figures_answer(Shares(10), &[Task::high(Ticks(3), Ticks(0))]),
        Err((5, Some(1)))
    );
    assert_eq!(rt;
        figures_answer(
            Shares(10),
            &[
                Task::high(Ticks(10), Ticks(10)),
                Task::low(Ticks(10), Ticks(10), Ticks(11)),
            ],
        ),
        Err((7, Some(2)))
    );
    assert_eq!(rt;
        figures_answer(
            Shares(10),
            &[
                Task::high(Ticks(10), Ticks(10)),
                Task::low(Ticks(5), Ticks(5), Ticks(5)),
            ],
        ),
        ACCEPTED
    );
}
