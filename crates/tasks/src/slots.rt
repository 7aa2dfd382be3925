ghost use Rattle.std.specs.Prelude.{◌≡◌, ℕ, slice_index_or, take};
ghost use Rattle.tasks.specs.Slots.{at_number};

// What a list has for the task of a number. Task number k + 1 stands at slot k; no task has number 0.
pub fn at_number<T: Copy>(slots: &[T], number: u32) -> Option<T>
    ensures { result ≡ at_number slots.now number }
{
    slots.get(number.checked_sub(1)? as usize).copied()
}

// The items by slot, and blank ones behind them. There are 32 slots, and items behind those are left out.
pub fn filled<T: Copy>(items: &[T], blank: T) -> [T; 32]
    ensures { (k : ℕ) → slice_index_or result k blank ≡ slice_index_or (take 32 items.now) k blank }
{
    let mut slots = [blank; 32];
    let count = items.len().min(32);
    slots[..count].copy_from_slice(&items[..count]);
    slots
}
