ghost use Rattle.std.specs.Prelude.{◌≡◌, ℕ, ◌-◌, ◌≤◌, not, ◌&&◌, ◌||◌, ◌==◌, nat_lt};
ghost use Rattle.order.specs.Bits.{bit, lowest, count};

// The mask with the bit of a slot set.
pub fn with_slot(mask: u32, slot: u32) -> u32
    ensures { (k : ℕ) → bit result k ≡ (bit mask k || (nat_lt slot 32 && k == slot)) }
{
    if slot < 32 { mask | (1 << slot) } else { mask }
}

// The mask with the bit of a slot clear.
pub fn without_slot(mask: u32, slot: u32) -> u32
    ensures { (k : ℕ) → bit result k ≡ (bit mask k && not (k == slot)) }
{
    if slot < 32 { mask & !(1 << slot) } else { mask }
}

// The mask with its lowest set bit clear.
pub fn without_lowest(mask: u32) -> u32
    ensures bits { (k : ℕ) → bit result k ≡ (bit mask k && not (k == lowest mask)) }
    ensures less { result ≤ mask - 1 }
{
    mask & mask.wrapping_sub(1)
}

// How many slots the mask has.
pub fn slots_in(mask: u32) -> u32
    ensures { result ≡ count 32 (bit mask) }
{
    mask.count_ones()
}
