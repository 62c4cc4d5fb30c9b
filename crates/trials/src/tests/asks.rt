//! Calls of the board as entries of a table, each with the answer expected.
use board::board::Board;
use board::lowest::Lowest;
use lists::journal::Journal;
use rules::rack::Sizes;
use rules::refusal::Refusal;
use rules::report::{Action, Report};
use rules::span::Span;
use rules::ticket::{Request, Stage, Ticket};
use std::alloc::{AllocError, Global};
use std::process::Abort;
use std::test::Fail;

/// A call with its figures. A drive has a budget and so many places in its journal; a seen asks the
/// list of tickets for what the ticket's search goes by.
#[derive(Clone, Copy)]
pub(super) enum Ask {
    Open(u32, u32, u32, u32, u32),
    Book(u32, u32),
    Step(u32),
    Drive(u32, u32, usize),
    Collect(u32),
    Withdraw(u32),
    Back(u32),
    Row(u32, u32),
    Show(u32),
    Stage(u32),
    Seen(u32),
    InUse,
}

/// What it answers where it is not refused: nothing further, a number, a report, a drive's steps and
/// stage, the first column and the length of a window if there is one, or a stage.
#[derive(Clone, Copy, PartialEq, Eq, Debug)]
pub(super) enum Said {
    Done,
    Figure(u32),
    Told(u32, Action, u32, u32),
    Drove(u32, Stage),
    Window(Option<(u32, u32)>),
    At(Stage),
}

/// An answer, or why there is none.
pub(super) type Heard = Result<Said, Refusal>;

impl From<Report> for Said {
    fn from(report: Report) -> Said {
        Said::Told(report.number, report.action, report.column, report.row)
    }
}

impl From<Option<Span>> for Said {
    fn from(found: Option<Span>) -> Said {
        Said::Window(found.map(|span| (span.first, span.length)))
    }
}

// A drive with a journal of so many places, 64 at most.
fn drive(board: &mut Board, number: u32, budget: u32, room: usize) -> Heard {
    let mut places = [Report::default(); 64];
    let mut journal = Journal::new(&mut places[..room.min(64)]);
    board
        .drive(number, budget, &mut journal, &mut Lowest)
        .map(|(steps, stage)| Said::Drove(steps, stage))
}

fn seen(board: &Board, number: u32) -> Heard {
    board
        .tickets()
        .iter()
        .find(|ticket| ticket.number == number)
        .map(|ticket| Said::Figure(ticket.seen))
        .ok_or(Refusal::Unknown)
}

/// The answer to a call. Marks go to the lowest vacant row.
pub(super) fn hear(board: &mut Board, ask: Ask) -> Heard {
    match ask {
        Ask::Open(rows, columns, places, lead, first) => {
            let sizes = Sizes {
                rows,
                columns,
                places,
                lead,
            };
            board.open(sizes, first).map(|()| Said::Done)
        }
        Ask::Book(start, length) => board.book(Request { start, length }).map(Said::Figure),
        Ask::Step(number) => board.step(number, &mut Lowest).map(Said::from),
        Ask::Drive(number, budget, room) => drive(board, number, budget, room),
        Ask::Collect(number) => board.collect(number).map(Said::from),
        Ask::Withdraw(number) => board.withdraw(number).map(|()| Said::Done),
        Ask::Back(number) => board.back(number).map(|()| Said::Done),
        Ask::Row(number, offset) => board.row(number, offset).map(Said::Figure),
        Ask::Show(column) => board.show(column).map(Said::Figure),
        Ask::Stage(number) => Ok(Said::At(board.stage(number))),
        Ask::Seen(number) => seen(board, number),
        Ask::InUse => Ok(Said::Figure(board.tickets().len() as u32)),
    }
}

// All that can be seen of a board: the tickets, the marks of each column up to one past the last, and
// the row at each offset of each ticket.
#[derive(PartialEq, Drop)]
struct Sight {
    tickets: Vec<Ticket>,
    marks: Vec<Result<u32, Refusal>>,
    rows: Vec<Result<u32, Refusal>>,
}

fn look(heap: Global, board: &Board) -> Result<Sight, AllocError> {
    let tickets = board.tickets();
    let rows = tickets.iter().flat_map(|ticket| {
        let number = ticket.number;
        (0..65).map(move |offset| board.row(number, offset))
    });
    Ok(Sight {
        tickets: tickets.to_vec(heap)?,
        marks: (0..257).map(|column| board.show(column)).collect(heap)?,
        rows: rows.collect(heap)?,
    })
}

/// Makes the calls in order on a board never opened. Each has to be answered as the table says, and one
/// that is refused must leave all that can be seen as it was.
pub(super) fn play(rt: &impl Abort, heap: Global, lines: &[(Ask, Heard)]) -> Result<(), Fail> {
    let mut board = Board::new(heap)?;
    for (i, (ask, said)) in lines.iter().enumerate() {
        let before = look(heap, &board)?;
        let heard = hear(&mut board, *ask);
        assert_eq!(rt; heard, *said, "line {i}");
        let after = look(heap, &board)?;
        assert!(rt; heard.is_ok() || before == after, "refused line {i}");
    }
    Ok(())
}
