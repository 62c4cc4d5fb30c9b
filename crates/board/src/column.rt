//! The slots of one column, row 1 first.
ghost use Rattle.std.specs.Prelude.{◌≡◌, ◌≤◌, not, length};
ghost use Rattle.rules.specs.Lists.{count_of};
ghost use Rattle.rules.specs.Rack.{is_vacant, row_of};
ghost use Rattle.rules.specs.Choosers.{mask_of};

use rules::slot::Slot;

/// At most as many slots as a rack has rows.
#[derive(Clone, Copy)]
pub(crate) struct Column<'a> {
    pub(crate) slots: &'a [Slot],
    ghost short: { length slots.now ≤ 16 },
}

impl Column<'_> {
    /// The vacant rows as a mask, row 1 in bit 0.
    pub(crate) fn vacant_rows(&self) -> u16
        ensures { result ≡ mask_of self.now.slots.now }
    {
        let mut mask = 0u16;
        for (i, slot) in self.slots.iter().enumerate() {
            if slot.is_vacant() {
                mask += 1 << i;
            }
        }
        mask
    }

    /// The row, counted from 1, of the mark of this number; 0 where there is none.
    pub(crate) fn row_of(&self, number: u32) -> u32
        ensures { result ≡ row_of number self.now.slots.now }
    {
        for (i, slot) in self.slots.iter().enumerate() {
            if slot.holds(number) {
                return i as u32 + 1;
            }
        }
        0
    }

    /// How many slots hold a mark.
    pub(crate) fn marks(&self) -> u32
        ensures { result ≡ count_of (λ s. not (is_vacant s)) self.now.slots.now }
    {
        self.slots.iter().filter(|slot| !slot.is_vacant()).count() as u32
    }
}
