//! The words that a line of the console can begin with.
ghost use Rattle.std.specs.Prelude.{◌≡◌};
ghost use Rattle.text.specs.Verbs.{verb_word, verb_figures, verb_of, Names};

pub use crate::figures::Figures;
use crate::head::Head;

/// What a line asks for.
#[derive(Clone, Copy, PartialEq, Eq, Debug)]
pub enum Verb {
    Open,
    Book,
    Step,
    Drive,
    Collect,
    Drop,
    Back,
    Show,
}

impl Verb {
    /// The verb's word, the first field of its line.
    pub fn word(self) -> &'static str
        ensures { result.now ≡ verb_word self }
    {
        match self {
            Verb::Open => "open",
            Verb::Book => "book",
            Verb::Step => "step",
            Verb::Drive => "drive",
            Verb::Collect => "collect",
            Verb::Drop => "drop",
            Verb::Back => "back",
            Verb::Show => "show",
        }
    }
}

/// The verb that has this word.
fn verb_of(text: &[u8]) -> Option<Verb>
    ensures { Names text.now result }
{
    match text {
        b"open" => Some(Verb::Open),
        b"book" => Some(Verb::Book),
        b"step" => Some(Verb::Step),
        b"drive" => Some(Verb::Drive),
        b"collect" => Some(Verb::Collect),
        b"drop" => Some(Verb::Drop),
        b"back" => Some(Verb::Back),
        b"show" => Some(Verb::Show),
        _ => None,
    }
}

/// A line of the console begins with a verb.
impl Head for Verb {
    ghost spelled = { verb_of };

    ghost wants = { verb_figures };

    fn named(text: &[u8]) -> Option<Verb>
        ensures verb { result ≡ verb_of text.now }
        ensures names { Names text.now result }
    {
        verb_of(text)
    }

    fn figures(self) -> Figures {
        match self {
            Verb::Open => Figures { least: 5, most: 5 },
            Verb::Book => Figures { least: 2, most: 2 },
            Verb::Step => Figures { least: 1, most: 1 },
            Verb::Drive => Figures { least: 2, most: 2 },
            Verb::Collect => Figures { least: 1, most: 1 },
            Verb::Drop => Figures { least: 1, most: 1 },
            Verb::Back => Figures { least: 1, most: 1 },
            Verb::Show => Figures { least: 1, most: 1 },
        }
    }
}
