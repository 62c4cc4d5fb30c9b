//! Lists of calls drawn by chance, each answer held against the slow ledger.
use crate::tests::chance::Chance;
use crate::tests::ledger::{Kind, Ledger, Rack};
use crate::tests::reading::Foreseen;
use board::board::Board;
use lists::journal::Journal;
use rules::refusal::Refusal;
use rules::report::Report;
use rules::span::Span;
use rules::ticket::{Request, Stage};
use std::alloc::Global;
use std::process::Abort;
use std::test::Fail;

/// A rack, and what is drawn on it: starts from `base` on, in a spread of columns; lengths up to
/// `longest`; steps that name any ticket, or with `newest` set the newest one only; so many calls.
#[derive(Clone, Copy, Debug)]
pub(super) struct Draws {
    pub rack: Rack,
    pub base: u32,
    pub spread: u32,
    pub longest: u32,
    pub newest: bool,
    pub calls: u32,
}

// The stages in which a step can work on a ticket.
const SOFT: [Stage; 2] = [Stage::Seeking, Stage::Closing];

/// A board under trial, with what its answers have told so far.
#[derive(Drop)]
pub(super) struct Trial {
    pub heap: Global,
    pub draws: Draws,
    pub board: Board,
    pub ledger: Ledger,
    pub chance: Chance,
    pub withdrawn: usize,
    pub returned: usize,
}

impl Trial {
    pub(super) fn new(heap: Global, draws: Draws, seed: u32) -> Result<Trial, Fail> {
        let mut board = Board::new(heap)?;
        draws.rack.open(&mut board)?;
        Ok(Trial {
            heap,
            draws,
            board,
            ledger: Ledger::new(heap, draws.rack)?,
            chance: Chance::new(seed),
            withdrawn: 0,
            returned: 0,
        })
    }

    // The steps within which every booking must be decided or withdrawn.
    fn patience(&self) -> usize {
        let rack = self.draws.rack;
        let wide = rack.sizes.places.wrapping_add(rack.sizes.lead);
        let long = rack.sizes.columns.wrapping_mul(2).wrapping_add(1);
        wide.wrapping_mul(wide).wrapping_mul(long) as usize
    }

    /// The number that the next booking must get.
    pub(super) fn next(&self) -> u32 {
        self.draws.rack.first.wrapping_add(self.ledger.taken())
    }

    // A ticket of the board, or now and then a number that is gone or was never given.
    fn pick(&mut self) -> u32 {
        let count = self.board.tickets().len() as u32;
        if count == 0 || self.chance.below(8) == 0 {
            let past = self.chance.below(self.ledger.taken().wrapping_add(2));
            return self.draws.rack.first.wrapping_add(past).wrapping_sub(1);
        }
        let place = self.chance.below(count) as usize;
        self.board
            .tickets()
            .get(place)
            .map_or(0, |ticket| ticket.number)
    }

    // The newest ticket that a step can name.
    fn newest(&self) -> u32 {
        self.board
            .tickets()
            .iter()
            .rfind(|ticket| ticket.phase.is_soft())
            .map_or(0, |ticket| ticket.number)
    }

    fn pick_to_step(&mut self) -> u32 {
        if self.draws.newest {
            self.newest()
        } else {
            self.pick()
        }
    }

    // What a call must be answered that wants a number in one of these stages.
    fn must_be(&self, number: u32, wanted: &[Stage]) -> Result<(), Refusal> {
        match self.ledger.stage(number) {
            stage if wanted.contains(&stage) => Ok(()),
            Stage::Idle => Err(Refusal::Unknown),
            _ => Err(Refusal::Stage),
        }
    }

    // What a booking must be answered.
    fn must_book(&self, request: Request) -> Result<u32, Refusal> {
        let end = request.start.wrapping_add(request.length);
        if !(1..=64).contains(&request.length) || end > self.draws.rack.sizes.columns {
            return Err(Refusal::Columns);
        }
        if self.ledger.in_use() >= self.draws.rack.sizes.places as usize {
            return Err(Refusal::Places);
        }
        Ok(self.next())
    }

    fn book(&mut self, rt: &impl Abort) -> Result<(), Fail> {
        let ahead = self.chance.below(self.draws.spread);
        let length = self.chance.below(self.draws.longest.wrapping_add(1));
        let start = self.draws.base.wrapping_add(ahead);
        let request = Request { start, length };
        let answer = self.board.book(request);
        assert_eq!(rt; answer, self.must_book(request));
        if let Ok(number) = answer {
            self.ledger.take(number, request)?;
        }
        Ok(())
    }

    // Reports, one after the other. No booking may wait for as many steps as `patience`.
    fn read(
        &mut self,
        rt: &impl Abort,
        chooser: &impl Foreseen,
        reports: &[Report],
    ) -> Result<(), Fail> {
        for report in reports {
            self.ledger.read(rt, chooser, *report)?;
            assert!(rt; self.ledger.longest_wait() < self.patience());
        }
        Ok(())
    }

    fn step<C: Foreseen>(&mut self, rt: &impl Abort, chooser: &mut C) -> Result<(), Fail> {
        let number = self.pick_to_step();
        let must = self.must_be(number, &SOFT);
        let answer = self.board.step(number, chooser);
        assert_eq!(rt; answer.map(|_| ()), must);
        if let Ok(report) = answer {
            self.read(rt, chooser, &[report])?;
        }
        Ok(())
    }

    // What a drive must be answered, but for its steps: a full journal is refused last.
    fn must_drive(&self, number: u32, room: usize) -> Result<(), Refusal> {
        self.must_be(number, &SOFT)?;
        if room == 0 {
            return Err(Refusal::Full);
        }
        Ok(())
    }

    // A drive ends where its ticket is not soft, at its budget, or where the journal is full.
    fn drive<C: Foreseen>(&mut self, rt: &impl Abort, chooser: &mut C) -> Result<(), Fail> {
        let number = self.pick_to_step();
        let budget = self.chance.below(80);
        let room = (self.chance.below(65) as usize).min(64);
        let mut places = [Report::default(); 64];
        let mut journal = Journal::new(&mut places[..room]);
        let must = self.must_drive(number, room);
        let answer = self.board.drive(number, budget, &mut journal, chooser);
        assert_eq!(rt; answer.map(|_| ()), must);
        if let Ok((made, stage)) = answer {
            assert_eq!(rt; journal.len(), made as usize);
            self.read(rt, chooser, journal.entries())?;
            assert_eq!(rt; stage, self.ledger.stage(number));
            assert_eq!(rt; stage, self.board.stage(number));
            assert!(rt; made <= budget);
            assert!(rt; made == budget || made as usize == room || !SOFT.contains(&stage));
        }
        Ok(())
    }

    // What a collection must be answered.
    fn must_collect(&self, number: u32) -> Result<Option<Span>, Refusal> {
        let booking = self.ledger.booking(number).ok_or(Refusal::Unknown)?;
        match booking.kind {
            Kind::Standing(window) if !booking.collected => Ok(Some(window)),
            Kind::Without if !booking.collected => Ok(None),
            _ if booking.stage() == Stage::Idle => Err(Refusal::Unknown),
            _ => Err(Refusal::Stage),
        }
    }

    fn collect(&mut self, rt: &impl Abort) {
        let number = self.pick();
        let must = self.must_collect(number);
        let answer = self.board.collect(number);
        assert_eq!(rt; answer, must);
        if answer.is_ok() {
            if let Some(booking) = self.ledger.booking_mut(number) {
                booking.collected = true;
            }
        }
    }

    // The booking is of another kind now.
    fn turn(&mut self, number: u32, kind: Kind) {
        if let Some(booking) = self.ledger.booking_mut(number) {
            booking.kind = kind;
        }
    }

    fn withdraw(&mut self, rt: &impl Abort) {
        let number = self.pick();
        let must = self.must_be(number, &[Stage::Seeking]);
        let answer = self.board.withdraw(number);
        assert_eq!(rt; answer, must);
        if answer.is_ok() {
            self.turn(number, Kind::Withdrawn);
            self.withdrawn = self.withdrawn.saturating_add(1);
        }
    }

    fn back(&mut self, rt: &impl Abort) {
        let number = self.pick();
        let must = self.must_be(number, &[Stage::Out]);
        let answer = self.board.back(number);
        assert_eq!(rt; answer, must);
        if answer.is_ok() {
            self.turn(number, Kind::Returned);
            self.ledger.leave(number);
            self.returned = self.returned.saturating_add(1);
        }
    }

    /// One call drawn by chance.
    pub(super) fn call<C: Foreseen>(
        &mut self,
        rt: &impl Abort,
        chooser: &mut C,
    ) -> Result<(), Fail> {
        match self.chance.below(16) {
            0..=2 => self.book(rt)?,
            3..=6 => self.step(rt, chooser)?,
            7..=9 => self.drive(rt, chooser)?,
            10..=12 => self.collect(rt),
            13 => self.withdraw(rt),
            _ => self.back(rt),
        }
        Ok(())
    }
}
