//! Adjacent columns.

/// The `length` columns from `first` on.
#[derive(Clone, Copy, PartialEq, Eq, Debug)]
pub struct Span {
    pub first: u32,
    pub length: u32,
}
