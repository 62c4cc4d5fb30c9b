//! The routine: book, drive, collect, ask for every row, hand back.
ghost use Rattle.std.specs.Prelude.{◌≡◌, Some, Ok};
ghost use Rattle.rules.specs.declared.ticket.Stage.TheVariants.{Closing};
ghost use Rattle.rules.specs.declared.span.Span.{Span as SpanOf};
ghost use Rattle.rules.specs.Calls.{stage_at};
ghost use Rattle.lists.specs.Reading.{contents_of};
ghost use Rattle.board.specs.Face.{rack_in};
ghost use Rattle.episode.specs.Visits.{Leads, row_noted, rows_noted, visited};

use board::board::Board;
use board::chooser::Chooser;
use handles::desk::{back, book, collect, drive, row, withdraw};
use handles::grant::Grant;
use handles::slip::Refused;
use lists::journal::Journal;
use rules::refusal::Refusal;
use rules::report::Report;
use rules::span::Span;
use rules::ticket::Request;

/// The most steps that a visit makes.
const BUDGET: u32 = 1000;

/// Enters the row that was told, if one was, while there is room.
fn note_row(rows: &mut Journal<u32>, told: Result<u32, Refusal>)
    ensures rows { contents_of rows.new ≡ row_noted (contents_of rows.old) told }
    ensures place { rows.new.slots.ghost_name ≡ rows.old.slots.ghost_name }
{
    if let Ok(row) = told {
        let _ = rows.push(row);
    }
}

/// Enters the row of each of the window's columns, and gives the grant back to its holder.
fn ask_rows(board: &Board, grant: Grant, length: u32, rows: &mut Journal<u32>) -> Grant
    ensures grant { result ≡ grant }
    ensures rows { contents_of rows.new ≡ rows_noted (rack_in board.now) grant.number length (contents_of rows.old) }
    ensures place { rows.new.slots.ghost_name ≡ rows.old.slots.ghost_name }
{
    let mut held = grant;
    for offset in 0..length {
        let (told, same) = row(board, held, offset);
        held = same;
        note_row(rows, told);
    }
    held
}

/// Answers the span that was held, or nothing where there is no window. It ends with nothing in
/// hand: a window that was out is handed back, and a booking still undecided is withdrawn.
pub fn visit<C: Chooser>(
    board: &mut Board,
    request: Request,
    reports: &mut Journal<Report>,
    chooser: &mut C,
    rows: &mut Journal<u32>,
) -> Result<Option<Span>, Refusal>
    ensures answer { result ≡ (visited C.Chooser.meaning (rack_in board.old) request chooser.old (contents_of reports.old) (contents_of rows.old)).answer }
    ensures rack { rack_in board.new ≡ (visited C.Chooser.meaning (rack_in board.old) request chooser.old (contents_of reports.old) (contents_of rows.old)).rack }
    ensures chooser { chooser.new ≡ (visited C.Chooser.meaning (rack_in board.old) request chooser.old (contents_of reports.old) (contents_of rows.old)).held }
    ensures reports { contents_of reports.new ≡ (visited C.Chooser.meaning (rack_in board.old) request chooser.old (contents_of reports.old) (contents_of rows.old)).reports }
    ensures rows { contents_of rows.new ≡ (visited C.Chooser.meaning (rack_in board.old) request chooser.old (contents_of reports.old) (contents_of rows.old)).rows }
    ensures reports_place { reports.new.slots.ghost_name ≡ reports.old.slots.ghost_name }
    ensures rows_place { rows.new.slots.ghost_name ≡ rows.old.slots.ghost_name }
    ensures handed_back { (span : SpanOf) → result ≡ Ok (Some span) → stage_at (rack_in board.new) (rack_in board.old).next ≡ Closing }
    ensures history { Leads (rack_in board.old) (rack_in board.new) }
{
    let slip = book(board, request)?;
    let _ = drive(board, &slip, BUDGET, reports, chooser);
    match collect(board, slip) {
        Ok(Some((grant, span))) => {
            let grant = ask_rows(board, grant, span.length, rows);
            back(board, grant)?;
            Ok(Some(span))
        }
        Ok(None) => Ok(None),
        Err(Refused::Ended(refusal)) => Err(refusal),
        Err(Refused::Kept(slip, refusal)) => match withdraw(board, slip) {
            Ok(()) => Err(refusal),
            Err(_) => unreachable(),
        },
    }
}
