//! The chooser that stays in the row to the left.
ghost use Rattle.rules.specs.Choosers.{staying};
ghost use Rattle.rules.proofs.Picks.{staying_lawful};

use crate::chooser::Chooser;
use crate::mask::{lowest_in, vacant_in};
use rules::asked::Asked;

/// Picks the row to the left if that is vacant, else the lowest vacant row.
#[derive(Clone, Copy)]
pub struct Staying;

impl Chooser for Staying {
    ghost meaning = { staying };

    ghost lawful = { λ s q row e. staying_lawful s q row e };

    fn choose(&mut self, asked: Asked) -> Option<u32> {
        match asked.left {
            Some(row) if vacant_in(asked.mask, row) => Some(row),
            _ => lowest_in(asked.mask),
        }
    }
}
