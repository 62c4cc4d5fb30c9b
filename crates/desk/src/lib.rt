//! The lines of an input, each answered before the next is read.
#![tactic(auto)]

ghost use Rattle.std.specs.Prelude.{◌≡◌, ℕ, ◌≤◌, [], List, Some, true, length, is_ok, IfOk, OnOk};
ghost use Rattle.std.specs.Io.KnownBytes.{Appends};
ghost use Rattle.text.specs.declared.fault.LineFault.{LineFault as Noted};
ghost use Rattle.text.specs.Frames.{is_new};
ghost use Rattle.text.specs.Pages.{shortest, end_line};
ghost use Rattle.desk.specs.Closing.{fault_lines, closing};

use std::io;
use std::io::{Read, Write};
use text::fault::{Fault, LineFault};
use text::frame::Framer;
use text::page::{SHORTEST, write_end, write_fault};

/// How many bytes a read asks for.
pub const BLOCK: usize = 65536;

/// How many faults are printed at the end: the first ones.
pub const FAULTS: usize = 256;

/// What answers lines: it counts them, and notes the faults of those that it refuses.
pub trait Handler {
    // the faults noted, how many lines were read, and how many of them were refused
    ghost noted: { Self → List Noted };

    ghost read: { Self → ℕ };

    ghost refused: { Self → ℕ };

    /// Answers a line on the page, and tells how long the answer is; no line is given if it is too long to keep.
    fn handle(&mut self, line: Option<&[u8]>, page: &mut [u8]) -> Result<usize, Fault>
        ensures served { shortest ≤ length page.old → is_ok result ≡ true }
        ensures fits { IfOk result (λ n. n ≤ length page.old) };

    fn faults(&self) -> &[LineFault]
        ensures { result.now ≡ noted self.now };

    fn lines(&self) -> u64
        ensures { result ≡ read self.now };

    fn refusals(&self) -> u64
        ensures { result ≡ refused self.now };
}

/// What is open between two lines.
#[derive(Drop)]
pub struct Desk<S, W> {
    framer: Framer,
    session: S,
    out: W,
}

impl<S: Handler, W: Write> Desk<S, W> {
    /// No line was read yet.
    pub fn new(session: S, out: W) -> Desk<S, W>
        ensures framer { result.framer ≡ Some [] }
        ensures session { result.session ≡ session }
        ensures out { result.out ≡ out }
    {
        Desk {
            framer: Framer::new(),
            session,
            out,
        }
    }

    /// Answers the line that the framer has read.
    fn answer(&mut self) -> io::Result<()>
        ensures { self.new.framer ≡ Some [] }
    {
        let mut page = [0; SHORTEST];
        let len = self.session.handle(self.framer.line(), &mut page).unwrap();
        self.framer.clear();
        self.out.write_all(&page[..len])
    }

    /// Answers the lines that end in the block.
    fn answer_block(&mut self, block: &[u8]) -> io::Result<()> {
        let mut rest = block;
        while let Some(after) = self.framer.read(rest) {
            self.answer()?;
            rest = after;
        }
        self.out.flush()
    }

    /// Answers the lines of the input; what follows the last line feed is one, unless it is empty. The
    /// lines that a read brought are answered before the next read.
    pub fn answer_all<R: Read>(&mut self, input: &mut R, block: &mut [u8]) -> io::Result<()>
        ensures { OnOk result (is_new self.new.framer ≡ true) }
    {
        for _ in 0..u64::MAX {
            let len = input.read(block)?;
            if len == 0 {
                break;
            }
            self.answer_block(&block[..len])?;
        }
        if !self.framer.is_empty() {
            self.answer()?;
        }
        Ok(())
    }

    /// Writes the closing lines: the faults that were noted, and the counts.
    pub fn close(&mut self) -> io::Result<()>
        ensures { OnOk result (Appends (W.contents self.old.out) (W.contents self.new.out) (closing (S.noted self.old.session) (S.read self.old.session) (S.refused self.old.session))) }
    {
        write_faults(&mut self.out, self.session.faults())?;
        let lines = self.session.lines();
        let refusals = self.session.refusals();
        write_counts(&mut self.out, lines, refusals)?;
        self.out.flush()
    }
}

/// Writes a line for each fault.
fn write_faults<W: Write>(out: &mut W, faults: &[LineFault]) -> io::Result<()>
    ensures { OnOk result (Appends (W.contents out.old) (W.contents out.new) (fault_lines faults.now)) }
{
    let mut page = [0; SHORTEST];
    for noted in faults {
        let len = write_fault(&mut page, noted.line, noted.fault).unwrap();
        out.write_all(&page[..len])?;
    }
    Ok(())
}

/// Writes how many lines were read, and how many of them were refused.
fn write_counts<W: Write>(out: &mut W, lines: u64, refusals: u64) -> io::Result<()>
    ensures { OnOk result (Appends (W.contents out.old) (W.contents out.new) (end_line lines refusals)) }
{
    let mut page = [0; SHORTEST];
    let len = write_end(&mut page, lines, refusals).unwrap();
    out.write_all(&page[..len])
}
