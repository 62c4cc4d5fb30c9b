//! Why a call says no.
ghost use Rattle.std.specs.Prelude.{◌≡◌};
ghost use Rattle.rules.specs.Words.{refusal_number};

/// The causes for which a call is refused.
#[derive(Clone, Copy, PartialEq, Eq, Debug)]
pub enum Refusal {
    /// An opening outside its limits.
    Limits = 1,
    /// A length outside its limits, or columns outside the board or the window.
    Columns = 2,
    /// The numbers are used up.
    Numbers = 3,
    /// No place is idle.
    Places = 4,
    /// No ticket has that number.
    Unknown = 5,
    /// The ticket is in another stage.
    Stage = 6,
    /// A journal or a list is full.
    Full = 7,
    /// The first field is no known word.
    Verb = 8,
    /// Too few or too many fields.
    Fields = 9,
    /// A field is no figure.
    Figure = 10,
    /// The line is too long, or its line feed is not where it should be.
    Line = 11,
    /// The page is too short.
    Page = 12,
    /// A sheet's figure is outside its limits.
    Grant = 13,
}

impl Refusal {
    /// The number that answers use.
    pub fn number(self) -> u32
        ensures { result ≡ refusal_number self }
    {
        self as u32
    }
}
