//! What an opening fixes of the rack, and the limits of it.

/// The most rows that a rack can have.
pub const MOST_ROWS: u32 = 16;

/// The most columns that a rack can have.
pub const MOST_COLUMNS: u32 = 256;

/// The most places for tickets.
pub const MOST_PLACES: u32 = 64;

/// The longest lead.
pub const MOST_LEAD: u32 = 64;

/// The most columns that a booking can ask for.
pub const LONGEST_SPAN: u32 = 64;

/// The largest number that an opening can begin with.
pub const LAST_FIRST: u32 = 1_000_000_000;

/// The largest number of a booking.
pub const LAST_NUMBER: u32 = 2_000_000_000;

/// Rows, columns, places for tickets, and the lead, by which a step may run ahead of the oldest soft
/// ticket.
#[derive(Clone, Copy, PartialEq, Eq, Debug)]
pub struct Sizes {
    pub rows: u32,
    pub columns: u32,
    pub places: u32,
    pub lead: u32,
}
