//! The accounts of an audit, held against a count of what the same calls answer one by one.
use crate::tests::chance::Chance;
use crate::tests::ledger::Rack;
use board::audit::{Accounts, Call, Turn, audit};
use board::board::Board;
use board::lowest::Lowest;
use lists::journal::Journal;
use rules::rack::Sizes;
use rules::refusal::Refusal;
use rules::report::{Action, Report};
use rules::ticket::Request;
use std::alloc::{AllocError, Global};
use std::process::Abort;
use std::test::Fail;

// What is counted of the answers.
#[derive(Clone, Copy, Default)]
struct Count {
    taken: u32,
    withdrawn: u32,
    without: u32,
    granted: u32,
    returned: u32,
}

// One more, where it is so.
fn add(counted: &mut u32, so: bool) {
    *counted = counted.saturating_add(u32::from(so));
}

impl Count {
    fn report(&mut self, report: Report) {
        add(&mut self.without, report.action == Action::Without);
        add(&mut self.granted, report.action == Action::Grant);
    }

    fn accounts(&self) -> Accounts {
        let decided = self.without.wrapping_add(self.granted);
        Accounts {
            taken: self.taken,
            undecided: self
                .taken
                .wrapping_sub(self.withdrawn)
                .wrapping_sub(decided),
            withdrawn: self.withdrawn,
            without: self.without,
            standing: self.granted.wrapping_sub(self.returned),
            returned: self.returned,
        }
    }

    // Makes a call and counts what it answers; what a drive enters is counted later.
    fn call(&mut self, board: &mut Board, call: Call, journal: &mut Journal<Report>) {
        match call {
            Call::Book(request) => add(&mut self.taken, board.book(request).is_ok()),
            Call::Step(number) => {
                if let Ok(report) = board.step(number, &mut Lowest) {
                    self.report(report);
                }
            }
            Call::Drive { number, budget } => {
                let _ = board.drive(number, budget, journal, &mut Lowest);
            }
            Call::Collect(number) => {
                let _ = board.collect(number);
            }
            Call::Withdraw(number) => add(&mut self.withdrawn, board.withdraw(number).is_ok()),
            Call::Back(number) => add(&mut self.returned, board.back(number).is_ok()),
        }
    }

    fn calls(&mut self, board: &mut Board, turns: &[Turn<Lowest>], journal: &mut Journal<Report>) {
        for turn in turns {
            self.call(board, turn.call, journal);
        }
    }

    fn reports(&mut self, reports: &[Report]) {
        for report in reports {
            self.report(*report);
        }
    }
}

// A call that names one of the first so many numbers.
fn draw(chance: &mut Chance, most: u32) -> Call {
    let number = chance.below(most).wrapping_add(1);
    match chance.below(12) {
        0 | 1 => Call::Book(Request {
            start: chance.below(6),
            length: chance.below(5),
        }),
        2..=4 => Call::Step(number),
        5..=7 => Call::Drive {
            number,
            budget: chance.below(9),
        },
        8 | 9 => Call::Collect(number),
        10 => Call::Back(number),
        _ => Call::Withdraw(number),
    }
}

fn draw_turns(heap: Global, seed: u32) -> Result<Vec<Turn<Lowest>>, AllocError> {
    let mut chance = Chance::new(seed);
    (0..400)
        .map(|i| Turn {
            call: draw(&mut chance, i / 10 + 1),
            chooser: Lowest,
        })
        .collect(heap)
}

impl Rack {
    fn audit(
        &self,
        board: &mut Board,
        turns: &mut [Turn<Lowest>],
        journal: &mut Journal<Report>,
    ) -> Result<Accounts, Refusal> {
        audit(board, self.sizes, self.first, turns, journal)
    }
}

// The same turns by an audit and one by one, on two racks alike.
fn agrees(rt: &impl Abort, heap: Global, rack: Rack, seed: u32) -> Result<Accounts, Fail> {
    let mut turns = draw_turns(heap, seed)?;
    let mut board = Board::new(heap)?;
    let mut places = [Report::default(); 900];
    let mut journal = Journal::new(&mut places);
    let mut count = Count::default();
    rack.open(&mut board)?;
    count.calls(&mut board, &turns, &mut journal);
    count.reports(journal.entries());
    journal.clear();
    let accounts = rack.audit(&mut board, &mut turns, &mut journal)?;
    assert_eq!(rt; accounts, count.accounts(), "seed {seed}");
    Ok(accounts)
}

// A refused opening is the answer, and no turn is made.
fn refused(rt: &impl Abort, heap: Global) -> Result<(), Fail> {
    let rack = Rack {
        sizes: Sizes {
            rows: 1,
            columns: 7,
            places: 65,
            lead: 0,
        },
        first: 1,
    };
    let mut turns = draw_turns(heap, 5)?;
    let mut board = Board::new(heap)?;
    let mut places = [Report::default(); 4];
    let mut journal = Journal::new(&mut places);
    let answer = rack.audit(&mut board, &mut turns, &mut journal);
    assert_eq!(rt; answer, Err(Refusal::Limits));
    assert_eq!(rt; journal.len(), 0);
    assert_eq!(rt; board.tickets().len(), 0);
    Ok(())
}

#[test]
fn audits(rt: HostRuntime) -> Result<(), Fail> {
    refused(&rt, rt.alloc())?;
    let mut returned = 0u32;
    let mut without = 0u32;
    for seed in 0..200u32 {
        let rack = Rack {
            sizes: Sizes {
                rows: seed % 2 + 1,
                columns: 7,
                places: 16,
                lead: seed % 5,
            },
            first: 1,
        };
        let accounts = agrees(&rt, rt.alloc(), rack, seed * 31)?;
        returned = returned.saturating_add(accounts.returned);
        without = without.saturating_add(accounts.without);
    }
    assert!(rt;
        returned > 500 && without > 1000,
        "{returned} and {without}"
    );
    Ok(())
}
