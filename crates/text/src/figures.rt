//! How many figures may follow a word.

/// Between `least` and `most`.
#[derive(Clone, Copy, PartialEq, Eq, Debug)]
pub struct Figures {
    pub least: u32,
    pub most: u32,
}
