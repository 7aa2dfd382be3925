ghost use Rattle.std.specs.Prelude.{◌≡◌};
ghost use Rattle.std.specs.Iterator.{YieldsFirst, item_count};
ghost use Rattle.order.specs.Bits.{slots_of};
ghost use Rattle.order.specs.Slots.{slots_left};

use super::mask::without_lowest;

// The slots of a mask, lowest first.
#[derive(Clone, Copy, Debug)]
pub struct Slots(u32);

impl Slots {
    // All slots whose bits are set.
    pub fn of(mask: u32) -> Slots
        ensures { slots_left result ≡ slots_of mask }
    {
        Slots(mask)
    }
}

impl Iterator for Slots {
    type Item = u32;

    ghost next_gives = { YieldsFirst slots_left };

    ghost remaining = { item_count slots_left };

    fn next(&mut self) -> Option<u32> {
        if self.0 == 0 {
            return None;
        }
        let slot = self.0.trailing_zeros();
        self.0 = without_lowest(self.0);
        Some(slot)
    }
}
