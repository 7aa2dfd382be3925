ghost use Rattle.std.specs.Prelude.{◌≡◌, ℕ, ◌+◌, ◌<◌, true, not, ◌&&◌, length, if◌then◌else◌, None, slice_index_or};
ghost use Rattle.table.specs.Tables.{draft_of};
ghost use Rattle.order.specs.Bits.{bit};
ghost use Rattle.runs.specs.States.{known};
ghost use Rattle.runs.specs.Masks.{mask};
ghost use Rattle.runs.specs.Slots.{seat};
ghost use Rattle.runs.specs.Ticking.{drops};
ghost use Rattle.dispatch.specs.Cores.{Agrees, Owned, drops_at};

use super::lookup::{at, within};
use super::row::Row;
use order::mask::with_slot;
use order::slots::Slots;
use runs::answer::Job;
use table::table::Table;

// Whether the job of a slot is a low one that has had its assured part.
fn is_past(table: &Table, jobs: &[Option<Job>; 32], slot: u32) -> bool
    requires low { slot < 32 }
    requires owned { Owned (draft_of table.now).count jobs.now }
    ensures { result ≡ drops_at (draft_of table.now) jobs.now slot }
{
    at(jobs, slot).is_some_and(
        |job|
            requires { known (draft_of table.now) (slot + 1) ≡ true }
        {
            let row = Row {
                table,
                number: slot + 1,
            };
            !within(row.task().criticality, job.run)
        },
    )
}

// The pending jobs that a switch drops: the low ones that have had their assured part.
pub(crate) fn past_assured(table: &Table, jobs: &[Option<Job>; 32], pending: u32) -> u32
    requires agrees { Agrees pending jobs.now }
    requires owned { Owned (draft_of table.now).count jobs.now }
    ensures is { result ≡ mask 32 (drops (draft_of table.now) (seat jobs.now)) }
    ensures bits { (k : ℕ) → bit result k ≡ drops_at (draft_of table.now) jobs.now k }
{
    let mut past = 0;
    for slot in Slots::of(pending) {
        if is_past(table, jobs, slot) {
            past = with_slot(past, slot);
        }
    }
    past
}

// Clears the slots of a mask.
pub(crate) fn clear(jobs: &mut [Option<Job>; 32], mask: u32)
    ensures at { (k : ℕ) → slice_index_or jobs.new k None ≡ (if bit mask k then None else slice_index_or jobs.old k None) }
    ensures long { length jobs.new ≡ 32 }
{
    for slot in Slots::of(mask) {
        jobs[slot as usize] = None;
    }
}

// The mask without the slots of another.
pub(crate) fn without(mask: u32, others: u32) -> u32
    ensures { (k : ℕ) → bit result k ≡ (bit mask k && not (bit others k)) }
{
    mask & !others
}
