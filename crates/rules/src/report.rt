//! What a step tells of itself.
ghost use Rattle.std.specs.Prelude.{◌≡◌};
ghost use Rattle.rules.specs.Words.{action_number};

/// The six things that a step can do.
#[derive(Clone, Copy, PartialEq, Eq, Debug, Default)]
pub enum Action {
    /// The last mark becomes vacant.
    #[default]
    Wipe = 1,
    /// The search starts over, since slots were handed back after it began.
    Over = 2,
    /// The booking is decided: no window.
    Without = 3,
    /// The booking is decided: it has its window.
    Grant = 4,
    /// A vacant slot of the next column gets a mark.
    Mark = 5,
    /// The next column is a wall: the search goes on behind it.
    Wall = 6,
}

impl Action {
    /// The number that reports use.
    pub fn number(self) -> u32
        ensures { result ≡ action_number self }
    {
        self as u32
    }
}

/// One step: the ticket worked on, what was done, and where. The row is 0 unless one was marked or wiped.
/// The default fills the places of a journal before there are entries.
#[derive(Clone, Copy, PartialEq, Eq, Debug, Default)]
pub struct Report {
    pub number: u32,
    pub action: Action,
    pub column: u32,
    pub row: u32,
}
