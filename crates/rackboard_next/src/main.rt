//! The console as a program: lines from standard input, answers to standard output. The lines that a
//! read brought are answered before the next read.
#![tactic(auto)]

ghost use Rattle.lists.specs.Contents.{entries_of};
ghost use Rattle.lists.specs.Reading.{contents_of};

use board::board::Board;
use board::lowest::Lowest;
use console_next::session::Session;
use desk::{BLOCK, Desk, FAULTS, Handler};
use lists::journal::Journal;
use rules::report::Report;
use std::io;
use std::io::BufWriter;
use text::fault::{Fault, LineFault};

/// How many steps a line can make.
const REPORTS: usize = 4096;

/// The session, and the journals of the last line's reports and of the faults.
#[derive(Drop)]
struct Noting<'a, 'b> {
    session: Session<Lowest>,
    reports: Journal<'a, Report>,
    faults: Journal<'b, LineFault>,
}

impl Handler for Noting<'_, '_> {
    ghost noted = { λ s. entries_of (contents_of s.faults) };

    ghost read = { λ s. s.session.lines };

    ghost refused = { λ s. s.session.refusals };

    fn handle(&mut self, line: Option<&[u8]>, page: &mut [u8]) -> Result<usize, Fault> {
        self.session
            .handle(&mut self.reports, &mut self.faults, line, page)
    }

    fn faults(&self) -> &[LineFault] {
        self.faults.entries()
    }

    fn lines(&self) -> u64 {
        self.session.lines
    }

    fn refusals(&self) -> u64 {
        self.session.refusals
    }
}

fn main(rt: HostRuntime) -> io::Result<()> {
    let mut steps = [Report::default(); REPORTS];
    let mut places = [LineFault::blank(); FAULTS];
    let noting = Noting {
        session: Session::new(Board::new(rt.alloc())?, Lowest),
        reports: Journal::new(&mut steps),
        faults: Journal::new(&mut places),
    };
    let mut desk = Desk::new(noting, BufWriter::new(rt.alloc(), rt.stdout())?);
    let mut block = [0; BLOCK];
    desk.answer_all(&mut rt.stdin(), &mut block)?;
    desk.close()
}
