// A row with its tally, in an order.
ghost use Rattle.board.specs.Tallies.{ranks};
ghost use Rattle.std.proofs.Common.{rules};

use lists::foremost::Ranked;

// How often a row was picked.
#[derive(Clone, Copy, PartialEq, Eq, PartialOrd, Ord, Default)]
pub struct RowTally {
    pub count: u16,
    pub row: u32,
}

impl Ranked for RowTally {
    ghost before = { ranks };

    ghost total = { Prim.search rules };

    ghost transitive = { Prim.search rules };

    fn stands_before(&self, other: &Self) -> bool {
        self <= other
    }
}
