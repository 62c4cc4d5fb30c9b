//! The board that programs hold: tables that some list of calls has led to.
ghost use Rattle.rules.specs.Sound.{Reached};
ghost use Rattle.board.specs.Reading.{rack_of};

use crate::tables::Tables;

/// A slot board. Every call on it has one outcome, and after every list of calls the laws hold.
#[derive(Drop)]
pub struct Board {
    pub(crate) tables: Tables,
    ghost reached: { Reached (rack_of tables) },
}
