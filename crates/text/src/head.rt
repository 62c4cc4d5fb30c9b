//! How a line is read: a known word first, and then its figures.
ghost use Rattle.std.specs.Prelude.{◌≡◌, ℕ, List, Option};
ghost use Rattle.text.specs.declared.figures.Figures.{Figures as Range};
ghost use Rattle.text.specs.Heads.{wanted, head_in, line_read};
ghost use Rattle.text.specs.Tokens.{token_of};

use crate::fault::Fault;
use crate::field::{count_fields, next_field};
use crate::figures::Figures;
use crate::line::is_line;
use crate::token::{MOST_FIGURES, Token, read_figures};
use rules::refusal::Refusal;

/// The words that a kind of line can begin with.
pub trait Head: Copy {
    // the word of this text, if it is known
    ghost spelled: { List ℕ → Option Self };

    // how many figures follow a word
    ghost wants: { Self → Range };

    fn named(text: &[u8]) -> Option<Self>
        ensures { result ≡ spelled text.now };

    fn figures(self) -> Figures
        ensures { result ≡ wants self };
}

impl Figures {
    /// Whether so many figures are as many as are wanted.
    pub fn allow(self, count: u32) -> bool
        ensures { result ≡ wanted self count }
    {
        (self.least..=self.most).contains(&count)
    }
}

/// The word that the first field is, if it is a known one.
fn head_of<H: Head>(first: &[u8]) -> Option<H>
    ensures { result ≡ head_in H.Head.spelled H.Head.wants (token_of first.now 1) }
{
    H::named(Token::new(first, 1).word()?)
}

/// Reads a line. What is wrong with it is tried in this order: it is no line, its first field is no
/// known word, there are too few or too many figures, a field is no figure.
pub fn read_line<H: Head>(line: &[u8]) -> Result<(H, [u32; MOST_FIGURES]), Fault>
    ensures { result ≡ line_read H.Head.spelled H.Head.wants line.now }
{
    if !is_line(line) {
        return Err(Refusal::Line.into());
    }
    let found = count_fields(line) as u32;
    let (first, _rest) = next_field(line);
    let head = head_of::<H>(first).ok_or(Fault::new(Refusal::Verb, 1, found))?;
    if !head.figures().allow(found - 1) {
        return Err(Fault::new(Refusal::Fields, 1, found));
    }
    let figures = read_figures(line)?;
    Ok((head, figures))
}
