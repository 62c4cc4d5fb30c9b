//! A sheet cut into its lines.
ghost use Rattle.std.specs.Prelude.{◌≡◌, ◌<◌, ◌∷◌, length};
ghost use Rattle.std.specs.Iterator.{YieldsFirstBy, item_count};
ghost use Rattle.text.specs.Frames.{lines_of};

use text::frame::find_feed;

/// The first line, with its line feed, and what follows it. A line ends after a line feed, or where the bytes end.
fn next_line(rest: &[u8]) -> (&[u8], &[u8])
    requires { 0 < length rest.now }
    ensures { lines_of rest.now ≡ result.0.now ∷ lines_of result.1.now }
{
    match find_feed(rest) {
        Some(i) => rest.split_at(i + 1),
        None => (rest, &[]),
    }
}

/// The lines of what is left of a sheet, one after another.
#[derive(Drop)]
pub(crate) struct Lines<'a> {
    pub(crate) rest: &'a [u8],
}

impl<'a> Iterator for Lines<'a> {
    type Item = &'a [u8];

    ghost next_gives = { YieldsFirstBy (λ x. x.now) (λ s. lines_of s.rest.now) };

    ghost remaining = { item_count (λ s. lines_of s.rest.now) };

    fn next(&mut self) -> Option<&'a [u8]> {
        if self.rest.is_empty() {
            return None;
        }
        let (line, rest) = next_line(self.rest);
        self.rest = rest;
        Some(line)
    }
}
