//! Turns played on a board just opened, and the accounts of what they told.
ghost use Rattle.std.specs.Prelude.{◌≡◌, ◌+◌, ◌≤◌, length, Ok};
ghost use Rattle.lists.specs.Reading.{contents_of};
ghost use Rattle.rules.specs.Lists.{count_of};
ghost use Rattle.rules.specs.Rack.{seeking, hard};
ghost use Rattle.board.specs.declared.audit.Accounts.{Accounts};
ghost use Rattle.board.specs.Face.{rack_in};
ghost use Rattle.board.specs.Audit.{is_drop, turned, used, counted_on, audited, history_of, Accounted};

use crate::board::Board;
use crate::chooser::Chooser;
use lists::journal::Journal;
use rules::rack::Sizes;
use rules::refusal::Refusal;
use rules::report::Report;
use rules::ticket::{Phase, Request, Ticket};

/// A call on a board, but for its opening.
#[derive(Clone, Copy, PartialEq, Eq, Debug)]
pub enum Call {
    Book(Request),
    Step(u32),
    Drive { number: u32, budget: u32 },
    Collect(u32),
    Withdraw(u32),
    Back(u32),
}

/// A call with the chooser that it consults.
#[derive(Drop)]
pub struct Turn<C> {
    pub call: Call,
    pub chooser: C,
}

/// How many bookings were taken, and how many of them are of each kind.
#[derive(Clone, Copy, PartialEq, Eq, Debug)]
pub struct Accounts {
    pub taken: u32,
    pub undecided: u32,
    pub withdrawn: u32,
    pub without: u32,
    pub standing: u32,
    pub returned: u32,
}

/// Plays a turn; answers how many bookings it withdrew: one or none.
fn play<C: Chooser>(board: &mut Board, turn: &mut Turn<C>, journal: &mut Journal<Report>) -> u32
    ensures withdrew { result ≡ count_of is_drop (turned C.Chooser.meaning (rack_in board.old) (contents_of journal.old) turn.old).events }
    ensures rack { rack_in board.new ≡ (turned C.Chooser.meaning (rack_in board.old) (contents_of journal.old) turn.old).rack }
    ensures turn { turn.new ≡ used C.Chooser.meaning (rack_in board.old) (contents_of journal.old) turn.old }
    ensures journal { contents_of journal.new ≡ (turned C.Chooser.meaning (rack_in board.old) (contents_of journal.old) turn.old).journal }
    ensures place { journal.new.slots.ghost_name ≡ journal.old.slots.ghost_name }
{
    match turn.call {
        Call::Book(request) => {
            let _ = board.book(request);
            0
        }
        Call::Step(number) => {
            let _ = board.step(number, &mut turn.chooser);
            0
        }
        Call::Drive { number, budget } => {
            let _ = board.drive(number, budget, journal, &mut turn.chooser);
            0
        }
        Call::Collect(number) => {
            let _ = board.collect(number);
            0
        }
        Call::Withdraw(number) => u32::from(board.withdraw(number).is_ok()),
        Call::Back(number) => {
            let _ = board.back(number);
            0
        }
    }
}

fn is_seeking(phase: Phase) -> bool
    ensures { result ≡ seeking phase }
{
    matches!(phase, Phase::Forward | Phase::Backing(_))
}

/// How many tickets are seeking, and how many are granted or out.
fn seeking_and_hard(tickets: &[Ticket]) -> (u32, u32)
    requires { length tickets.now ≤ 64 }
    ensures seeking { result.0 ≡ count_of (λ t. seeking t.phase) tickets.now }
    ensures hard { result.1 ≡ count_of (λ t. hard t.phase) tickets.now }
{
    let seeking = tickets.iter().filter(|t| is_seeking(t.phase)).count();
    let hard = tickets.iter().filter(|t| t.phase.is_hard()).count();
    (seeking as u32, hard as u32)
}

/// The accounts of a board where so many bookings were withdrawn.
fn accounts_on(board: &Board, withdrawn: u32) -> Accounts
    requires { (rack_in board.now).first + count_of (λ t. seeking t.phase) (rack_in board.now).tickets + withdrawn + count_of (λ t. hard t.phase) (rack_in board.now).tickets + (rack_in board.now).handbacks ≤ (rack_in board.now).next }
    ensures { result ≡ counted_on (rack_in board.now) withdrawn }
{
    let tables = &board.tables;
    let taken = tables.next - tables.first;
    let (undecided, standing) = seeking_and_hard(&tables.tickets);
    let returned = tables.handbacks;
    Accounts {
        taken,
        undecided,
        withdrawn,
        without: taken - undecided - withdrawn - standing - returned,
        standing,
        returned,
    }
}

/// Opens the board, plays the turns in order, and answers the accounts of what they told. A refused
/// opening changes nothing; nor does a refused turn, and the next one follows it. All drives enter
/// their reports into the one journal, which is never emptied.
pub fn audit<C: Chooser>(
    board: &mut Board,
    sizes: Sizes,
    first: u32,
    turns: &mut [Turn<C>],
    journal: &mut Journal<Report>,
) -> Result<Accounts, Refusal>
    ensures answer { result ≡ (audited C.Chooser.meaning (rack_in board.old) sizes first (contents_of journal.old) turns.old).answer }
    ensures rack { rack_in board.new ≡ (audited C.Chooser.meaning (rack_in board.old) sizes first (contents_of journal.old) turns.old).rack }
    ensures turns { turns.new ≡ (audited C.Chooser.meaning (rack_in board.old) sizes first (contents_of journal.old) turns.old).turns }
    ensures journal { contents_of journal.new ≡ (audited C.Chooser.meaning (rack_in board.old) sizes first (contents_of journal.old) turns.old).journal }
    ensures place { journal.new.slots.ghost_name ≡ journal.old.slots.ghost_name }
    ensures history { (a : Accounts) → result ≡ Ok a → Accounted (history_of C.Chooser.meaning sizes first (contents_of journal.old) turns.old) (rack_in board.new) a }
{
    board.open(sizes, first)?;
    let mut withdrawn = 0;
    for turn in turns.iter_mut() {
        withdrawn += play(board, turn, journal);
    }
    Ok(accounts_on(board, withdrawn))
}
