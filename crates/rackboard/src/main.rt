//! The first console as a program: lines from standard input, answers to standard output. The lines that
//! a read brought are answered before the next read.
#![tactic(auto)]

ghost use Rattle.lists.specs.Contents.{entries_of};
ghost use Rattle.lists.specs.Reading.{contents_of};

use console::fault::Fault;
use console::session::{Journal, LineFault, Session};
use desk::{BLOCK, Desk, FAULTS, Handler};
use std::io;
use std::io::BufWriter;

/// The session, and the journal that its faults are noted in.
#[derive(Drop)]
struct Noting<'a> {
    session: Session,
    faults: Journal<'a, LineFault>,
}

impl Handler for Noting<'_> {
    ghost noted = { λ s. entries_of (contents_of s.faults) };

    ghost read = { λ s. s.session.lines };

    ghost refused = { λ s. s.session.refusals };

    fn handle(&mut self, line: Option<&[u8]>, page: &mut [u8]) -> Result<usize, Fault> {
        self.session.handle(line, page, &mut self.faults)
    }

    fn faults(&self) -> &[LineFault] {
        self.faults.entries()
    }

    fn lines(&self) -> u64 {
        self.session.lines
    }

    fn refusals(&self) -> u64 {
        self.session.refusals
    }
}

fn main(rt: HostRuntime) -> io::Result<()> {
    let mut places = [LineFault::blank(); FAULTS];
    let noting = Noting {
        session: Session::new(),
        faults: Journal::new(&mut places),
    };
    let mut desk = Desk::new(noting, BufWriter::new(rt.alloc(), rt.stdout())?);
    let mut block = [0; BLOCK];
    desk.answer_all(&mut rt.stdin(), &mut block)?;
    desk.close()
}
