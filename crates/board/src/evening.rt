//! The chooser that evens out its picks.
ghost use Rattle.std.specs.Prelude.{◌≡◌, ◌≤◌, replicate};
ghost use Rattle.rules.specs.Choosers.{evening_row, picked};
ghost use Rattle.board.specs.Tallies.{vacant_tallies, LeastPicked};
ghost use Rattle.rules.proofs.Picks.{evening_lawful};

use crate::chooser::Chooser;
use crate::mask::vacant_in;
use crate::tally::RowTally;
use arrayvec::ArrayVec;
use lists::foremost::foremost;
use rules::asked::Asked;
use rules::rack::MOST_ROWS;

/// A tally for each row that a rack can have.
const ROWS: usize = MOST_ROWS as usize;

/// Picks the vacant row that it has picked least often, the lower one on ties. A tally stops at
/// 65,535.
#[derive(Clone, Copy, Default)]
pub struct Evening {
    tallies: [u16; ROWS],
}

impl Evening {
    /// No picks yet.
    pub fn new() -> Evening
        ensures { result ≡ record { tallies = replicate 16 0 } }
    {
        Evening::default()
    }

    // The vacant rows with their tallies.
    fn vacant_tallies(&self, mask: u16) -> ArrayVec<RowTally, ROWS>
        ensures { result.items ≡ vacant_tallies self.now.tallies mask 1 16 }
    {
        let mut entries = ArrayVec::new();
        for (i, count) in self.tallies.iter().enumerate() {
            let row = i as u32 + 1;
            if vacant_in(mask, row) {
                entries.push(RowTally { count: *count, row });
            }
        }
        entries
    }

    // The vacant row with the smallest tally, the lower one on ties, if any is vacant.
    fn least_picked(&self, mask: u16) -> Option<u32>
        ensures { LeastPicked self.now.tallies mask result }
    {
        let entries = self.vacant_tallies(mask);
        let place = foremost(entries.as_slice())?;
        Some(entries.as_slice()[place].row)
    }

    // One more pick of the row.
    fn add_pick(&mut self, row: u32)
        requires { (1 ≤ row) × (row ≤ 16) }
        ensures { self.new ≡ record { tallies = picked self.old.tallies row } }
    {
        let at = row as usize - 1;
        self.tallies[at] = self.tallies[at].saturating_add(1);
    }
}

impl Chooser for Evening {
    ghost meaning = { record { row = λ c q. evening_row c.tallies q; then = λ c q. record { tallies = picked c.tallies (evening_row c.tallies q) } } };

    ghost lawful = { λ s q row e. evening_lawful s.tallies q row e };

    fn choose(&mut self, asked: Asked) -> Option<u32> {
        let row = self.least_picked(asked.mask)?;
        self.add_pick(row);
        Some(row)
    }
}
