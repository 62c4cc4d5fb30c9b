//! One line after another: each is answered and counted, and its fault noted.
ghost use Rattle.std.specs.Prelude.{◌≡◌, ◌≤◌, true, length, is_ok, IfOk, Ok};
ghost use Rattle.std.specs.Option.{option_map};
ghost use Rattle.lists.specs.Contents.{pushed};
ghost use Rattle.lists.specs.Reading.{contents_of};
ghost use Rattle.board.specs.Face.{rack_in};
ghost use Rattle.text.specs.Pages.{shortest, no_line, over};
ghost use Rattle.console_next.specs.Calls.{Continues};
ghost use Rattle.text.specs.Counts.{counted};
ghost use Rattle.console_next.specs.Sessions.{desk_of, line_answered, handled, ALongLineIsNoLine};

use crate::answer::answer;
use board::board::Board;
use board::chooser::Chooser;
use lists::journal::Journal;
use rules::refusal::Refusal;
use rules::report::Report;
use text::fault::{Fault, LineFault};
use text::page::{check, write_no};

/// A board with the chooser of its steps, and how many lines were read and how many refused. A count
/// that is as large as it can be stays.
#[derive(Drop)]
pub struct Session<C> {
    pub board: Board,
    pub chooser: C,
    pub lines: u64,
    pub refusals: u64,
}

impl<C: Chooser> Session<C> {
    /// No line was read yet.
    pub fn new(board: Board, chooser: C) -> Session<C>
        ensures { result ≡ record { board = board; chooser = chooser; lines = 0; refusals = 0 } }
    {
        Session {
            board,
            chooser,
            lines: 0,
            refusals: 0,
        }
    }

    /// Answers a line; none is given if it was too long to keep.
    fn answer_line(
        &mut self,
        reports: &mut Journal<Report>,
        line: Option<&[u8]>,
        page: &mut [u8],
    ) -> Result<usize, Fault>
        ensures answer { result ≡ (line_answered C.Chooser.meaning (option_map (λ x. x.now) line.entry) page.old (rack_in self.old.board) (contents_of reports.old) self.old.chooser).answer }
        ensures page { page.new ≡ (line_answered C.Chooser.meaning (option_map (λ x. x.now) line.entry) page.old (rack_in self.old.board) (contents_of reports.old) self.old.chooser).page }
        ensures rack { rack_in self.new.board ≡ (line_answered C.Chooser.meaning (option_map (λ x. x.now) line.entry) page.old (rack_in self.old.board) (contents_of reports.old) self.old.chooser).rack }
        ensures chooser { self.new.chooser ≡ (line_answered C.Chooser.meaning (option_map (λ x. x.now) line.entry) page.old (rack_in self.old.board) (contents_of reports.old) self.old.chooser).held }
        ensures reports { contents_of reports.new ≡ (line_answered C.Chooser.meaning (option_map (λ x. x.now) line.entry) page.old (rack_in self.old.board) (contents_of reports.old) self.old.chooser).journal }
        ensures place { reports.new.slots.ghost_name ≡ reports.old.slots.ghost_name }
        ensures lines { self.new.lines ≡ self.old.lines }
        ensures refusals { self.new.refusals ≡ self.old.refusals }
        ensures history { Continues (line_answered C.Chooser.meaning (option_map (λ x. x.now) line.entry) page.old (rack_in self.old.board) (contents_of reports.old) self.old.chooser).tells (rack_in self.old.board) (rack_in self.new.board) }
        ensures fits { IfOk result (λ n. n ≤ length page.old) }
    {
        let line = line.ok_or(Refusal::Line)?;
        answer(&mut self.board, &mut self.chooser, reports, line, page)
    }

    /// Answers a line on the page, and tells how long the answer is; none is given if the line was too
    /// long to keep. The reports of the line before are taken out first. A refused line is answered by
    /// its `no` line, and its fault is noted while there is room. All stays as it was if the page is too
    /// short.
    pub fn handle(
        &mut self,
        reports: &mut Journal<Report>,
        faults: &mut Journal<LineFault>,
        line: Option<&[u8]>,
        page: &mut [u8],
    ) -> Result<usize, Fault>
        ensures answer { result ≡ (handled C.Chooser.meaning (option_map (λ x. x.now) line.entry) page.old (desk_of self.old reports.old faults.old)).answer }
        ensures page { page.new ≡ (handled C.Chooser.meaning (option_map (λ x. x.now) line.entry) page.old (desk_of self.old reports.old faults.old)).page }
        ensures desk { desk_of self.new reports.new faults.new ≡ (handled C.Chooser.meaning (option_map (λ x. x.now) line.entry) page.old (desk_of self.old reports.old faults.old)).desk }
        ensures reports_place { reports.new.slots.ghost_name ≡ reports.old.slots.ghost_name }
        ensures faults_place { faults.new.slots.ghost_name ≡ faults.old.slots.ghost_name }
        ensures history { Continues (handled C.Chooser.meaning (option_map (λ x. x.now) line.entry) page.old (desk_of self.old reports.old faults.old)).tells (rack_in self.old.board) (rack_in self.new.board) }
        ensures served { shortest ≤ length page.old → is_ok result ≡ true }
        ensures fits { IfOk result (λ n. n ≤ length page.old) }
        ensures long { ALongLineIsNoLine C.Chooser.meaning }
    {
        check(page)?;
        reports.clear();
        self.lines = self.lines.saturating_add(1);
        match self.answer_line(reports, line, page) {
            Ok(len) => Ok(len),
            Err(fault) => {
                self.refusals = self.refusals.saturating_add(1);
                let _ = faults.push(LineFault {
                    line: self.lines,
                    fault,
                });
                write_no(page, fault)
            }
        }
    }
}
