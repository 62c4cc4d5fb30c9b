//! A grant, and the line of a sheet that tells it.
ghost use Rattle.sheets.specs.Sheets.{grant_word, grant_figures as figures_after};

use rules::span::Span;
use text::figures::Figures;
use text::head::Head;

/// A grant that is out: its ticket's number, and its columns.
#[derive(Clone, Copy, PartialEq, Eq, Debug)]
pub struct GrantLine {
    pub number: u32,
    pub span: Span,
}

/// The word that a grant's line begins with.
#[derive(Clone, Copy, PartialEq, Eq, Debug)]
pub enum GrantWord {
    Grant,
}

/// A line of a sheet is that word and three figures.
impl Head for GrantWord {
    ghost spelled = { grant_word };

    ghost wants = { figures_after };

    fn named(text: &[u8]) -> Option<GrantWord> {
        (text == b"grant".as_slice()).then_some(GrantWord::Grant)
    }

    fn figures(self) -> Figures {
        match self {
            GrantWord::Grant => Figures { least: 3, most: 3 },
        }
    }
}
