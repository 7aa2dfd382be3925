ghost use Rattle.std.specs.Prelude.{◌≡◌, ◌≤◌, length};

use tasks::units::Ticks;

// The numbers of a line, at most 32: the first `count` of fixed slots, as nothing here allocates.
// Nor a vector of another crate, since the repository stands on std alone.
#[derive(Clone, Copy)]
pub(crate) struct TickList {
    pub(crate) slots: [Ticks; 32],
    pub(crate) count: usize,
    ghost few: { count ≤ 32 },
    ghost long: { length slots ≡ 32 },
}
