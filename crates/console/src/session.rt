//! One line after another: each is answered, counted, and its fault noted.
ghost use Rattle.std.specs.Prelude.{◌≡◌, ◌≤◌, IfOk};
ghost use Rattle.lists.specs.Reading.{contents_of};
ghost use Rattle.text.specs.Pages.{shortest};
ghost use Rattle.console.specs.Sessions.{new_session, handled_at};

use crate::line::read_line;
pub use lists::journal::Journal;
use text::fault::Fault;
pub use text::fault::LineFault;
use text::page::write_no;

/// How many lines were read, and how many of them were refused. A count that is as large as it can be stays.
#[derive(Clone, Copy, PartialEq, Eq, Debug, Default)]
pub struct Session {
    pub lines: u64,
    pub refusals: u64,
}

impl Session {
    pub fn new() -> Session
        ensures { result ≡ new_session }
    {
        Session::default()
    }

    /// Answers a line on the page, and tells how long the answer is; no line is given if it is too long to keep.
    /// Its fault goes into the journal, while there is room. All stays as it was if the page is too short.
    pub fn handle(
        &mut self,
        line: Option<&[u8]>,
        page: &mut [u8],
        faults: &mut Journal<LineFault>,
    ) -> Result<usize, Fault>
        ensures answer { result ≡ (handled_at line.entry page.old self.old faults.old).answer }
        ensures fits { IfOk result (λ n. n ≤ shortest) }
        ensures page { page.new ≡ (handled_at line.entry page.old self.old faults.old).page }
        ensures session { self.new ≡ (handled_at line.entry page.old self.old faults.old).session }
        ensures faults { contents_of faults.new ≡ (handled_at line.entry page.old self.old faults.old).faults }
        ensures place { faults.new.slots.ghost_name ≡ faults.old.slots.ghost_name }
    {
        let Err(fault) = read_line(line);
        let len = write_no(page, fault)?;
        self.lines = self.lines.saturating_add(1);
        self.refusals = self.refusals.saturating_add(1);
        let _ = faults.push(LineFault {
            line: self.lines,
            fault,
        });
        Ok(len)
    }
}
