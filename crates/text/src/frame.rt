//! Input cut into lines, in blocks of any size.
ghost use Rattle.std.specs.Prelude.{◌≡◌, ◌<◌, ◌==◌, [], length, position, IfSome, Some, fold};
ghost use Rattle.std.specs.Option.{option_map};
ghost use Rattle.text.specs.Frames.{feed, Short, more, up_to_feed, after_feed, is_new, handed, handed_on, holding, holding_on, Frames, Whole};

use arrayvec::ArrayVec;
use std::marker::Model;

/// The longest line, with its line feed.
pub const LONGEST: usize = 80;

/// What ends a line, and belongs to it.
pub const FEED: u8 = b'\n';

/// Where the first line feed is.
pub fn find_feed(bytes: &[u8]) -> Option<usize>
    ensures place { result ≡ position (λ b. b == feed) bytes.now }
    ensures inside { IfSome result (λ i. i < length bytes.now) }
{
    bytes.iter().position(|byte| *byte == FEED)
}

/// What was read of the current line; none if it is too long to keep.
#[derive(Drop)]
pub struct Framer {
    line: Option<ArrayVec<u8, LONGEST>>,
}

impl Model for Framer {
    ghost use Rattle.std.specs.Prelude.{ℕ, ◌≤◌, List, length, Option, IfSome};
    ghost use Rattle.std.specs.Option.{option_map};
    ghost use Rattle.text.specs.Frames.{longest};

    ghost Value = { Option (List ℕ) };

    ghost view = { λ f. option_map (λ line. line.items) f.line };

    ghost invariant = { λ f. IfSome f.line (λ line. length line.items ≤ longest) };
}

impl Framer {
    /// At the start of an input.
    pub fn new() -> Framer
        ensures start { result ≡ Some [] }
        ensures lines { Frames result }
        ensures whole { Whole }
    {
        Framer {
            line: Some(ArrayVec::new()),
        }
    }

    /// The line as far as it was read, or none if it is too long.
    pub fn line(&self) -> Option<&[u8]>
        ensures line { option_map (λ x. x.now) result ≡ self.now }
        ensures fits { Short self.now }
    {
        self.line.as_ref().map(|line| line.as_slice())
    }

    /// Whether nothing was read of the line.
    pub fn is_empty(&self) -> bool
        ensures { result ≡ is_new self.now }
    {
        self.line().is_some_and(|bytes| bytes.is_empty())
    }

    /// Begins the next line.
    pub fn clear(&mut self)
        ensures { self.new ≡ Some [] }
    {
        self.line = Some(ArrayVec::new());
    }

    /// Reads more bytes of the line.
    fn extend(&mut self, bytes: &[u8])
        ensures line { self.new ≡ fold more self.old bytes.now }
        ensures fits { Short self.new }
    {
        if let Some(line) = &mut self.line {
            if line.try_extend_from_slice(bytes).is_err() {
                self.line = None;
            }
        }
    }

    /// Reads the block up to the end of the line, and answers what follows; none if the line does not end in it.
    pub fn read<'b>(&mut self, block: &'b [u8]) -> Option<&'b [u8]>
        ensures rest { option_map (λ x. x.now) result ≡ after_feed block.now }
        ensures less { IfSome result (λ rest. length rest.now < length block.now) }
        ensures line { self.new ≡ fold more self.old (up_to_feed block.now) }
        ensures fits { Short self.new }
        ensures hands { handed self.old block.now ≡ handed_on self.new (option_map (λ x. x.now) result) }
        ensures holds { holding self.old block.now ≡ holding_on self.new (option_map (λ x. x.now) result) }
    {
        let Some(i) = find_feed(block) else {
            self.extend(block);
            return None;
        };
        self.extend(&block[..=i]);
        Some(&block[i + 1..])
    }
}
