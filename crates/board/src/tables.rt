//! The tickets and the slots of a board, with what always holds of their sizes.
ghost use Rattle.std.specs.Prelude.{◌≡◌, ◌*◌, ◌≤◌, vec_len, vec_capacity};

use rules::rack::Sizes;
use rules::slot::Slot;
use rules::ticket::Ticket;

/// Tickets stand in rising order of their numbers; slots column by column, and in a column row by
/// row. Both lists have room for the largest board, so that nothing here ever allocates.
#[derive(Drop)]
pub struct Tables {
    pub(crate) sizes: Sizes,
    pub(crate) first: u32,
    pub(crate) next: u32,
    pub(crate) handbacks: u32,
    pub(crate) tickets: Vec<Ticket>,
    pub(crate) slots: Vec<Slot>,
    ghost tall: { (1 ≤ sizes.rows) × (sizes.rows ≤ 16) },
    ghost wide: { (1 ≤ sizes.columns) × (sizes.columns ≤ 256) },
    ghost placed: { (vec_len tickets ≤ sizes.places) × (sizes.places ≤ 64) },
    ghost cells: { vec_len slots ≡ sizes.columns * sizes.rows },
    ghost spare: { (64 ≤ vec_capacity tickets) × (4096 ≤ vec_capacity slots) },
}
