//! What is a line.
ghost use Rattle.std.specs.Prelude.{◌≡◌};
ghost use Rattle.text.specs.Lines.{ends_once, is_line};

use crate::frame::{LONGEST, find_feed};

/// Whether the first line feed is the last byte.
fn ends_once(bytes: &[u8]) -> bool
    ensures { result ≡ ends_once bytes.now }
{
    find_feed(bytes).is_some_and(|i| i + 1 == bytes.len())
}

/// Whether the bytes are a line: not too long, and with one line feed, at the end.
pub fn is_line(bytes: &[u8]) -> bool
    ensures { result ≡ is_line bytes.now }
{
    bytes.len() <= LONGEST && ends_once(bytes)
}
