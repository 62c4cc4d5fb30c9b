//! A line cut into its fields, and the figures that follow its first word.
ghost use Rattle.std.specs.Prelude.{◌≡◌, ◌<◌, ◌∷◌, ◌||◌, ◌==◌, length, position, IfSome};
ghost use Rattle.std.specs.Iterator.{YieldsFirstBy, item_count};
ghost use Rattle.std.specs.Option.{option_map};
ghost use Rattle.text.specs.Frames.{feed};
ghost use Rattle.text.specs.Fields.{tab, first_field, after_field, fields_of, fields_left, FieldsAreTheLineCutAtTabs};

use crate::frame::FEED;

/// What parts the fields of a line.
pub const TAB: u8 = b'\t';

/// Where the first tab or line feed is.
fn field_end(bytes: &[u8]) -> Option<usize>
    ensures place { result ≡ position (λ b. b == feed || b == tab) bytes.now }
    ensures inside { IfSome result (λ i. i < length bytes.now) }
{
    bytes.iter().position(|byte| *byte == FEED || *byte == TAB)
}

/// The first field, and what is left of the line after its tab. A field ends at a tab, at the line
/// feed, or where the bytes end.
pub fn next_field(rest: &[u8]) -> (&[u8], Option<&[u8]>)
    ensures field { result.0.now ≡ first_field rest.now }
    ensures rest { option_map (λ x. x.now) result.1 ≡ after_field rest.now }
    ensures fields { fields_of rest.now ≡ result.0.now ∷ fields_left result.1 }
{
    let Some(i) = field_end(rest) else {
        return (rest, None);
    };
    if rest[i] == TAB {
        (&rest[..i], Some(&rest[i + 1..]))
    } else {
        (&rest[..i], None)
    }
}

/// The fields of a line, one after another.
#[derive(Drop)]
pub(crate) struct Fields<'a> {
    rest: Option<&'a [u8]>,
}

impl<'a> Fields<'a> {
    /// The fields of what is left of a line, if anything is.
    pub(crate) fn left(rest: Option<&'a [u8]>) -> Fields<'a>
        ensures { fields_left result.rest ≡ fields_left rest.entry }
    {
        Fields { rest }
    }
}

impl<'a> Iterator for Fields<'a> {
    type Item = &'a [u8];

    ghost next_gives = { YieldsFirstBy (λ x. x.now) (λ s. fields_left s.rest) };

    ghost remaining = { item_count (λ s. fields_left s.rest) };

    fn next(&mut self) -> Option<&'a [u8]> {
        let (field, after) = next_field(self.rest?);
        self.rest = after;
        Some(field)
    }
}

/// How many fields a line has.
pub fn count_fields(line: &[u8]) -> usize
    ensures count { result ≡ length (fields_of line.now) }
    ensures fields { FieldsAreTheLineCutAtTabs }
{
    Fields::left(Some(line)).count()
}
