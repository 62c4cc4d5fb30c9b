//! A field with its place, known for a word or a figure.
ghost use Rattle.std.specs.Prelude.{◌≡◌};
ghost use Rattle.std.specs.Option.{option_map};
ghost use Rattle.text.specs.Figures.{bare, figure_of};
ghost use Rattle.text.specs.Fields.{fields_of};
ghost use Rattle.text.specs.Tokens.{told_by, token_of, word_in, figure_in, figures_of};

use crate::fault::Fault;
use crate::field::{Fields, next_field};
use rules::refusal::Refusal;
use std::str::from_utf8;

/// A field of a line, with its number, counted from 1.
#[derive(Clone, Copy)]
pub enum Token<'a> {
    Word { text: &'a [u8], field: u32 },
    Figure { value: u32, field: u32 },
}

/// Whether the text begins with neither a sign nor a zero before others: `parse` would take both.
fn is_bare(text: &[u8]) -> bool
    ensures { result ≡ bare text.now }
{
    !matches!(text, [b'+', ..] | [b'0', _, ..])
}

/// The number of a figure: 1 to 10 digits, no zero before others, at most 4,294,967,295.
fn figure(text: &[u8]) -> Option<u32>
    ensures { result ≡ figure_of text.now }
{
    if !is_bare(text) {
        return None;
    }
    let Ok(digits) = from_utf8(text) else {
        return None;
    };
    digits.parse().ok()
}

impl<'a> Token<'a> {
    /// The token of a field: a figure if its text is one, and else a word.
    #[inline(always)]
    pub fn new(text: &'a [u8], field: u32) -> Token<'a>
        ensures { told_by result ≡ token_of text.now field }
    {
        match figure(text) {
            Some(value) => Token::Figure { value, field },
            None => Token::Word { text, field },
        }
    }

    /// The text of a word.
    pub fn word(self) -> Option<&'a [u8]>
        ensures { option_map (λ x. x.now) result ≡ word_in (told_by self.entry) }
    {
        match self {
            Token::Word { text, .. } => Some(text),
            Token::Figure { .. } => None,
        }
    }

    /// The value of a figure; a word is a fault at its field.
    pub fn figure(self) -> Result<u32, Fault>
        ensures { result ≡ figure_in (told_by self.entry) }
    {
        match self {
            Token::Word { field, .. } => Err(Fault::new(Refusal::Figure, field, 0)),
            Token::Figure { value, .. } => Ok(value),
        }
    }
}

/// The most figures that a line can have.
pub const MOST_FIGURES: usize = 5;

/// The figures after the first field of a line; 0 stands for each that is not there.
pub fn read_figures(line: &[u8]) -> Result<[u32; MOST_FIGURES], Fault>
    ensures { result ≡ figures_of (fields_of line.now) }
{
    let (_first, rest) = next_field(line);
    let mut figures = [0; MOST_FIGURES];
    for (i, text) in Fields::left(rest).enumerate().take(MOST_FIGURES) {
        figures[i] = Token::new(text, i as u32 + 2).figure()?;
    }
    Ok(figures)
}
