//! The calls by slip and by grant: each makes the numbered call, and says what became of the thing.
ghost use Rattle.std.specs.Prelude.{◌≡◌};
ghost use Rattle.lists.specs.Contents.{room_of, entered};
ghost use Rattle.lists.specs.Reading.{contents_of};
ghost use Rattle.rules.specs.Calls.{book as book_call, step as step_call, drive as drive_call, collect as collect_call, drop' as drop_call, back as back_call, row as row_call, stage_at};
ghost use Rattle.rules.specs.History.{Event};
ghost use Rattle.rules.specs.Laws.{told, reported, Carries};
ghost use Rattle.board.specs.Face.{rack_in};
ghost use Rattle.handles.specs.Holding.{slip_for, grant_for, end_for};

use crate::grant::Grant;
use crate::slip::{Refused, Slip};
use board::board::Board;
use board::chooser::Chooser;
use lists::journal::Journal;
use rules::refusal::Refusal;
use rules::report::Report;
use rules::span::Span;
use rules::ticket::{Request, Stage};

/// Books adjacent columns from a start on, and gives the slip for them.
pub fn book(board: &mut Board, request: Request) -> Result<Slip, Refusal>
    ensures answer { result ≡ slip_for (book_call (rack_in board.old) request).answer }
    ensures rack { rack_in board.new ≡ (book_call (rack_in board.old) request).rack }
    ensures history { Carries (told (λ n. Event.taken n request) (book_call (rack_in board.old) request).answer) (rack_in board.old) (rack_in board.new) }
{
    let number = board.book(request)?;
    Ok(Slip { number })
}

/// Makes one step that names the slip's booking: one action of one ticket.
pub fn step<C: Chooser>(board: &mut Board, slip: &Slip, chooser: &mut C) -> Result<Report, Refusal>
    ensures answer { result ≡ (step_call C.Chooser.meaning (rack_in board.old) slip.now.number chooser.old).answer }
    ensures rack { rack_in board.new ≡ (step_call C.Chooser.meaning (rack_in board.old) slip.now.number chooser.old).ran.rack }
    ensures chooser { chooser.new ≡ (step_call C.Chooser.meaning (rack_in board.old) slip.now.number chooser.old).ran.held }
    ensures history { Carries (told Event.stepped result) (rack_in board.old) (rack_in board.new) }
{
    board.step(slip.number, chooser)
}

/// Drives the slip's booking on: answers how many steps it made, each with its report in the
/// journal, and the stage that the booking is in then.
pub fn drive<C: Chooser>(
    board: &mut Board,
    slip: &Slip,
    budget: u32,
    journal: &mut Journal<Report>,
    chooser: &mut C,
) -> Result<(u32, Stage), Refusal>
    ensures answer { result ≡ (drive_call C.Chooser.meaning (rack_in board.old) slip.now.number budget (room_of (contents_of journal.old)) chooser.old).answer }
    ensures rack { rack_in board.new ≡ (drive_call C.Chooser.meaning (rack_in board.old) slip.now.number budget (room_of (contents_of journal.old)) chooser.old).ran.rack }
    ensures chooser { chooser.new ≡ (drive_call C.Chooser.meaning (rack_in board.old) slip.now.number budget (room_of (contents_of journal.old)) chooser.old).ran.held }
    ensures journal { contents_of journal.new ≡ entered (contents_of journal.old) (drive_call C.Chooser.meaning (rack_in board.old) slip.now.number budget (room_of (contents_of journal.old)) chooser.old).ran.reports }
    ensures place { journal.new.slots.ghost_name ≡ journal.old.slots.ghost_name }
    ensures history { Carries (reported (drive_call C.Chooser.meaning (rack_in board.old) slip.now.number budget (room_of (contents_of journal.old)) chooser.old).ran.reports) (rack_in board.old) (rack_in board.new) }
{
    board.drive(slip.number, budget, journal, chooser)
}

/// Collects a decided booking: its slip becomes the grant of the span, or nothing where there is no window.
pub fn collect(board: &mut Board, slip: Slip) -> Result<Option<(Grant, Span)>, Refused>
    ensures answer { result ≡ grant_for (stage_at (rack_in board.old) slip.number) slip.number (collect_call (rack_in board.old) slip.number).answer }
    ensures rack { rack_in board.new ≡ (collect_call (rack_in board.old) slip.number).rack }
    ensures history { Carries (told (λ _. Event.collected slip.number) (collect_call (rack_in board.old) slip.number).answer) (rack_in board.old) (rack_in board.new) }
{
    let stage = board.stage(slip.number);
    match board.collect(slip.number) {
        Ok(Some(span)) => Ok(Some((Grant { number: slip.end() }, span))),
        Ok(None) => {
            slip.end();
            Ok(None)
        }
        Err(refusal) => Err(slip.refused(stage, refusal)),
    }
}

/// Withdraws an undecided booking (drop), and its slip ends.
pub fn withdraw(board: &mut Board, slip: Slip) -> Result<(), Refused>
    ensures answer { result ≡ end_for (stage_at (rack_in board.old) slip.number) slip.number (drop_call (rack_in board.old) slip.number).answer }
    ensures rack { rack_in board.new ≡ (drop_call (rack_in board.old) slip.number).rack }
    ensures history { Carries (told (λ _. Event.dropped slip.number) (drop_call (rack_in board.old) slip.number).answer) (rack_in board.old) (rack_in board.new) }
{
    let stage = board.stage(slip.number);
    if let Err(refusal) = board.withdraw(slip.number) {
        return Err(slip.refused(stage, refusal));
    }
    slip.end();
    Ok(())
}

/// The row marked in the window's column at this offset, or the refusal, beside the grant. Nothing changes.
pub fn row(board: &Board, grant: Grant, offset: u32) -> (Result<u32, Refusal>, Grant)
    ensures { result ≡ (row_call (rack_in board.now) grant.number offset, grant) }
{
    (board.row(grant.number, offset), grant)
}

/// Hands the window back. The grant ends, refused or not.
pub fn back(board: &mut Board, grant: Grant) -> Result<(), Refusal>
    ensures answer { result ≡ (back_call (rack_in board.old) grant.number).answer }
    ensures rack { rack_in board.new ≡ (back_call (rack_in board.old) grant.number).rack }
    ensures history { Carries (told (λ _. Event.returned grant.number) result) (rack_in board.old) (rack_in board.new) }
{
    board.back(grant.end())
}
