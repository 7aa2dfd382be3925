ghost use Rattle.std.specs.Prelude.{◌+◌, if◌then◌else◌, nat_lt, slice_index_or};
ghost use Rattle.table.specs.Tasks.{ticks};
ghost use Rattle.tasks.specs.declared.task.Level.TheVariants.{High};
ghost use Rattle.order.specs.Orders.{candidate};
ghost use Rattle.std.proofs.Common.{rules};

use super::by_number::ByNumber;
use super::candidate::Candidate;
use super::candidates::Candidates;
use super::chooser::first;
use super::high_first::HighFirst;
use super::tie_order::TieOrder;
use tasks::task::Level;
use tasks::units::Ticks;

// When a job is due, and its task's level.
#[derive(Clone, Copy)]
struct Due {
    deadline: Ticks,
    level: Level,
}

// Jobs as a dispatcher holds them: borrowed slots.
#[derive(Drop)]
struct View<'a> {
    jobs: &'a [Due; 32],
}

impl Candidates for View<'_> {
    ghost at = { λ v k. let job = slice_index_or v.jobs.now k (record { deadline = ticks 0; level = High }) in (if nat_lt k 32 then candidate job.deadline.0 job.level (k + 1) else candidate 0 High 0) };

    ghost numbered = { Prim.search rules };

    fn candidate(&self, slot: u32) -> Candidate {
        if slot < 32 {
            let job = self.jobs[slot as usize];
            Candidate::new(job.deadline, job.level, slot + 1)
        } else {
            Candidate::new(Ticks(0), Level::High, 0)
        }
    }
}

// Candidates of task 1 and task 2, whether the first goes ahead by number, and whether it does with high first.
#[test]
fn orders_decide(rt: HostRuntime) {
    let table = [
        (3, Level::Low, 4, Level::High, true, true),
        (4, Level::High, 3, Level::Low, false, false),
        (4, Level::Low, 4, Level::Low, true, true),
        (4, Level::High, 4, Level::High, true, true),
        (4, Level::High, 4, Level::Low, true, true),
        (4, Level::Low, 4, Level::High, true, false),
    ];
    for (due_a, level_a, due_b, level_b, by_number, high_first) in table {
        let a = Candidate::new(Ticks(due_a), level_a, 1);
        let b = Candidate::new(Ticks(due_b), level_b, 2);
        assert_eq!(rt; ByNumber.goes_ahead(&a, &b), by_number);
        assert_eq!(rt; ByNumber.goes_ahead(&b, &a), !by_number);
        assert_eq!(rt; HighFirst.goes_ahead(&a, &b), high_first);
        assert_eq!(rt; HighFirst.goes_ahead(&b, &a), !high_first);
    }
}

// A mask, the first slot by number, and the first slot with high first.
#[test]
fn chooser_finds(rt: HostRuntime) {
    let high = |deadline| Due {
        deadline: Ticks(deadline),
        level: Level::High,
    };
    let low = |deadline| Due {
        deadline: Ticks(deadline),
        level: Level::Low,
    };
    let mut jobs = [high(7); 32];
    jobs[0] = high(5);
    jobs[1] = low(3);
    jobs[2] = high(3);
    jobs[3] = low(3);
    jobs[31] = high(1);
    let view = View { jobs: &jobs };
    let table = [
        (0, None, None),
        (0b0001, Some(0), Some(0)),
        (0b11_0001, Some(0), Some(0)),
        (0b11_1111, Some(1), Some(2)),
        (0b11_1010, Some(1), Some(1)),
        (0b11_0000, Some(4), Some(4)),
        (0x8000_000f, Some(31), Some(31)),
    ];
    for (mask, by_number, high_first) in table {
        assert_eq!(rt; first(&ByNumber, &view, mask), by_number);
        assert_eq!(rt; first(&HighFirst, &view, mask), high_first);
    }
}
