//! The chooser that picks the lowest vacant row.
ghost use Rattle.rules.specs.Choosers.{lowest};
ghost use Rattle.rules.proofs.Picks.{lowest_lawful};

use crate::chooser::Chooser;
use crate::mask::lowest_in;
use rules::asked::Asked;

/// Picks the lowest vacant row.
#[derive(Clone, Copy)]
pub struct Lowest;

impl Chooser for Lowest {
    ghost meaning = { lowest };

    ghost lawful = { λ s q row e. lowest_lawful s q row e };

    fn choose(&mut self, asked: Asked) -> Option<u32> {
        lowest_in(asked.mask)
    }
}
