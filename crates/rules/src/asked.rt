//! What a row chooser is asked.

/// The column's vacant rows as a mask, row 1 in bit 0; the column; and the row of the ticket's own
/// mark one column to the left, if it has one.
#[derive(Clone, Copy, PartialEq, Eq, Debug)]
pub struct Asked {
    pub mask: u16,
    pub column: u32,
    pub left: Option<u32>,
}
