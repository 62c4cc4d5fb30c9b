//! Every refusal of the board at its edge, and openings.
use crate::tests::asks::{Ask, Heard, Said, hear, play};
use crate::tests::prefixed::Prefixed;
use board::board::Board;
use rules::refusal::Refusal;
use rules::report::Action;
use rules::ticket::Stage;
use std::alloc::Global;
use std::process::Abort;
use std::test::Fail;

const LIMITS: &[(Ask, Heard)] = &[
    (Ask::Open(2, 4, 2, 1, 5), Ok(Said::Done)),
    (Ask::Book(0, 2), Ok(Said::Figure(5))),
    (Ask::Step(5), Ok(Said::Told(5, Action::Mark, 0, 1))),
    (Ask::Open(0, 1, 1, 0, 1), Err(Refusal::Limits)),
    (Ask::Open(17, 1, 1, 0, 1), Err(Refusal::Limits)),
    (Ask::Open(1, 0, 1, 0, 1), Err(Refusal::Limits)),
    (Ask::Open(1, 257, 1, 0, 1), Err(Refusal::Limits)),
    (Ask::Open(1, 1, 0, 0, 1), Err(Refusal::Limits)),
    (Ask::Open(1, 1, 65, 0, 1), Err(Refusal::Limits)),
    (Ask::Open(1, 1, 1, 65, 1), Err(Refusal::Limits)),
    (Ask::Open(1, 1, 1, 0, 0), Err(Refusal::Limits)),
    (Ask::Open(1, 1, 1, 0, 1000000001), Err(Refusal::Limits)),
    (Ask::Open(4294967295, 1, 1, 0, 1), Err(Refusal::Limits)),
    (Ask::Open(16, 256, 64, 65, 1000000000), Err(Refusal::Limits)),
    (Ask::Step(5), Ok(Said::Told(5, Action::Mark, 1, 1))),
    (Ask::Open(1, 1, 1, 0, 1), Ok(Said::Done)),
    (Ask::Open(16, 1, 1, 0, 1), Ok(Said::Done)),
    (Ask::Open(1, 256, 1, 0, 1), Ok(Said::Done)),
    (Ask::Open(1, 1, 64, 0, 1), Ok(Said::Done)),
    (Ask::Open(1, 1, 1, 64, 1), Ok(Said::Done)),
    (Ask::Open(16, 256, 64, 64, 1000000000), Ok(Said::Done)),
    (Ask::Book(192, 64), Ok(Said::Figure(1000000000))),
    (Ask::Book(255, 1), Ok(Said::Figure(1000000001))),
    (
        Ask::Step(1000000001),
        Ok(Said::Told(1000000001, Action::Mark, 255, 1)),
    ),
    (Ask::Step(999999999), Err(Refusal::Unknown)),
    (Ask::Step(1000000002), Err(Refusal::Unknown)),
];

#[test]
fn opening_limits(rt: HostRuntime) -> Result<(), Fail> {
    play(&rt, rt.alloc(), LIMITS)
}

const COLUMNS: &[(Ask, Heard)] = &[
    (Ask::Open(1, 256, 64, 0, 1), Ok(Said::Done)),
    (Ask::Book(0, 0), Err(Refusal::Columns)),
    (Ask::Book(0, 1), Ok(Said::Figure(1))),
    (Ask::Book(0, 64), Ok(Said::Figure(2))),
    (Ask::Book(0, 65), Err(Refusal::Columns)),
    (Ask::Book(0, 4294967295), Err(Refusal::Columns)),
    (Ask::Book(192, 64), Ok(Said::Figure(3))),
    (Ask::Book(193, 64), Err(Refusal::Columns)),
    (Ask::Book(255, 1), Ok(Said::Figure(4))),
    (Ask::Book(255, 2), Err(Refusal::Columns)),
    (Ask::Book(256, 1), Err(Refusal::Columns)),
    (Ask::Book(256, 0), Err(Refusal::Columns)),
    (Ask::Book(4294967295, 1), Err(Refusal::Columns)),
    (Ask::Book(4294967295, 64), Err(Refusal::Columns)),
    (Ask::Book(4294967232, 64), Err(Refusal::Columns)),
    (Ask::Book(4294967233, 64), Err(Refusal::Columns)),
    (Ask::Show(255), Ok(Said::Figure(0))),
    (Ask::Show(256), Err(Refusal::Columns)),
    (Ask::Show(4294967295), Err(Refusal::Columns)),
    (Ask::Open(3, 2, 1, 0, 1), Ok(Said::Done)),
    (Ask::Show(1), Ok(Said::Figure(0))),
    (Ask::Show(2), Err(Refusal::Columns)),
    (Ask::Book(0, 3), Err(Refusal::Columns)),
    (Ask::Book(1, 2), Err(Refusal::Columns)),
    (Ask::Book(2, 1), Err(Refusal::Columns)),
    (Ask::Book(0, 2), Ok(Said::Figure(1))),
    (Ask::Drive(1, 9, 9), Ok(Said::Drove(3, Stage::Granted))),
    (Ask::Show(1), Ok(Said::Figure(1))),
    (Ask::Collect(1), Ok(Said::Window(Some((0, 2))))),
    (Ask::Row(1, 1), Ok(Said::Figure(1))),
    (Ask::Row(1, 2), Err(Refusal::Columns)),
    (Ask::Row(1, 4294967295), Err(Refusal::Columns)),
];

// Every stage but idle keeps its place, and columns are tried before places.
const PLACES: &[(Ask, Heard)] = &[
    (Ask::Open(1, 2, 2, 0, 1), Ok(Said::Done)),
    (Ask::Book(0, 1), Ok(Said::Figure(1))),
    (Ask::Book(1, 1), Ok(Said::Figure(2))),
    (Ask::Book(0, 1), Err(Refusal::Places)),
    (Ask::Book(0, 3), Err(Refusal::Columns)),
    (Ask::Withdraw(2), Ok(Said::Done)),
    (Ask::Stage(2), Ok(Said::At(Stage::Idle))),
    (Ask::Book(0, 2), Ok(Said::Figure(3))),
    (Ask::Drive(1, 9, 9), Ok(Said::Drove(2, Stage::Granted))),
    (Ask::Book(0, 1), Err(Refusal::Places)),
    (Ask::Collect(1), Ok(Said::Window(Some((0, 1))))),
    (Ask::Book(0, 1), Err(Refusal::Places)),
    (Ask::Drive(3, 9, 9), Ok(Said::Drove(2, Stage::Without))),
    (Ask::Book(0, 1), Err(Refusal::Places)),
    (Ask::Collect(3), Ok(Said::Window(None))),
    (Ask::InUse, Ok(Said::Figure(1))),
    (Ask::Book(1, 1), Ok(Said::Figure(4))),
    (Ask::Step(4), Ok(Said::Told(4, Action::Mark, 1, 1))),
    (Ask::Withdraw(4), Ok(Said::Done)),
    (Ask::Book(0, 1), Err(Refusal::Places)),
    (Ask::Step(4), Ok(Said::Told(4, Action::Wipe, 1, 1))),
    (Ask::Book(1, 1), Ok(Said::Figure(5))),
    (Ask::Back(1), Ok(Said::Done)),
    (Ask::Book(0, 1), Err(Refusal::Places)),
    (Ask::Step(1), Ok(Said::Told(1, Action::Wipe, 0, 1))),
    (Ask::Book(0, 1), Ok(Said::Figure(6))),
    (Ask::Book(0, 1), Err(Refusal::Places)),
];

// Takes as many bookings as there are places, one too many, and again one when a place is idle.
fn fill_places(rt: &impl Abort, board: &mut Board, places: u32) {
    assert_eq!(rt;
        hear(board, Ask::Open(16, 256, places, 64, 1)),
        Ok(Said::Done)
    );
    for number in 1..=places {
        assert_eq!(rt; hear(board, Ask::Book(0, 64)), Ok(Said::Figure(number)));
    }
    let next = places.wrapping_add(1);
    assert_eq!(rt; hear(board, Ask::Book(0, 64)), Err(Refusal::Places));
    assert_eq!(rt; hear(board, Ask::Withdraw(1)), Ok(Said::Done));
    assert_eq!(rt; hear(board, Ask::Book(0, 64)), Ok(Said::Figure(next)));
    assert_eq!(rt; hear(board, Ask::Book(0, 64)), Err(Refusal::Places));
    assert_eq!(rt; hear(board, Ask::InUse), Ok(Said::Figure(places)));
}

fn all_places(rt: &impl Abort, heap: Global) -> Result<(), Fail> {
    let mut board = Board::new(heap)?;
    for places in 1..=64 {
        fill_places(
            &Prefixed::new(rt, format_args!("{places} places")),
            &mut board,
            places,
        );
    }
    Ok(())
}

// A booking is refused for its columns and for want of a place.
#[test]
fn bookings(rt: HostRuntime) -> Result<(), Fail> {
    play(&Prefixed::new(&rt, "columns"), rt.alloc(), COLUMNS)?;
    play(&Prefixed::new(&rt, "places"), rt.alloc(), PLACES)?;
    all_places(&rt, rt.alloc())
}

// Numbers never given, and numbers gone: that comes before a full journal, and for a row before its
// columns.
const NUMBERS: &[(Ask, Heard)] = &[
    (Ask::Open(1, 3, 3, 0, 7), Ok(Said::Done)),
    (Ask::Step(7), Err(Refusal::Unknown)),
    (Ask::Book(0, 1), Ok(Said::Figure(7))),
    (Ask::Book(0, 3), Ok(Said::Figure(8))),
    (Ask::Step(0), Err(Refusal::Unknown)),
    (Ask::Step(6), Err(Refusal::Unknown)),
    (Ask::Step(9), Err(Refusal::Unknown)),
    (Ask::Step(4294967295), Err(Refusal::Unknown)),
    (Ask::Drive(9, 1, 1), Err(Refusal::Unknown)),
    (Ask::Drive(9, 0, 0), Err(Refusal::Unknown)),
    (Ask::Collect(9), Err(Refusal::Unknown)),
    (Ask::Withdraw(9), Err(Refusal::Unknown)),
    (Ask::Back(9), Err(Refusal::Unknown)),
    (Ask::Row(9, 0), Err(Refusal::Unknown)),
    (Ask::Row(9, 64), Err(Refusal::Unknown)),
    (Ask::Stage(9), Ok(Said::At(Stage::Idle))),
    (Ask::Drive(7, 2, 2), Ok(Said::Drove(2, Stage::Granted))),
    (Ask::Drive(8, 9, 9), Ok(Said::Drove(2, Stage::Without))),
    (Ask::Collect(8), Ok(Said::Window(None))),
    (Ask::Collect(8), Err(Refusal::Unknown)),
    (Ask::Step(8), Err(Refusal::Unknown)),
    (Ask::Drive(8, 1, 0), Err(Refusal::Unknown)),
    (Ask::Withdraw(8), Err(Refusal::Unknown)),
    (Ask::Back(8), Err(Refusal::Unknown)),
    (Ask::Row(8, 9), Err(Refusal::Unknown)),
    (Ask::Collect(7), Ok(Said::Window(Some((0, 1))))),
    (Ask::Back(7), Ok(Said::Done)),
    (Ask::Back(7), Err(Refusal::Stage)),
    (Ask::Drive(7, 9, 9), Ok(Said::Drove(1, Stage::Idle))),
    (Ask::Back(7), Err(Refusal::Unknown)),
    (Ask::Collect(7), Err(Refusal::Unknown)),
    (Ask::Row(7, 0), Err(Refusal::Unknown)),
    (Ask::Stage(7), Ok(Said::At(Stage::Idle))),
    (Ask::InUse, Ok(Said::Figure(0))),
];

// Each call in each wrong stage. The stage comes before a full journal, and for a row before its
// columns. Ticket 1 goes through seeking, granted, out and closing, ticket 2 through backing out and
// without, ticket 3 through backing out and closing.
const STAGES: &[(Ask, Heard)] = &[
    (Ask::Open(1, 4, 3, 4, 1), Ok(Said::Done)),
    (Ask::Book(2, 2), Ok(Said::Figure(1))),
    (Ask::Step(1), Ok(Said::Told(1, Action::Mark, 2, 1))),
    (Ask::Stage(1), Ok(Said::At(Stage::Seeking))),
    (Ask::Collect(1), Err(Refusal::Stage)),
    (Ask::Back(1), Err(Refusal::Stage)),
    (Ask::Row(1, 0), Err(Refusal::Stage)),
    (Ask::Row(1, 2), Err(Refusal::Stage)),
    (Ask::Step(1), Ok(Said::Told(1, Action::Mark, 3, 1))),
    (Ask::Step(1), Ok(Said::Told(1, Action::Grant, 2, 0))),
    (Ask::Stage(1), Ok(Said::At(Stage::Granted))),
    (Ask::Step(1), Err(Refusal::Stage)),
    (Ask::Drive(1, 1, 1), Err(Refusal::Stage)),
    (Ask::Drive(1, 0, 0), Err(Refusal::Stage)),
    (Ask::Withdraw(1), Err(Refusal::Stage)),
    (Ask::Back(1), Err(Refusal::Stage)),
    (Ask::Row(1, 0), Err(Refusal::Stage)),
    (Ask::Row(1, 2), Err(Refusal::Stage)),
    (Ask::Collect(1), Ok(Said::Window(Some((2, 2))))),
    (Ask::Stage(1), Ok(Said::At(Stage::Out))),
    (Ask::Step(1), Err(Refusal::Stage)),
    (Ask::Drive(1, 1, 0), Err(Refusal::Stage)),
    (Ask::Collect(1), Err(Refusal::Stage)),
    (Ask::Withdraw(1), Err(Refusal::Stage)),
    (Ask::Row(1, 1), Ok(Said::Figure(1))),
    (Ask::Row(1, 2), Err(Refusal::Columns)),
    (Ask::Book(1, 2), Ok(Said::Figure(2))),
    (Ask::Step(2), Ok(Said::Told(2, Action::Mark, 1, 1))),
    (Ask::Step(2), Ok(Said::Told(2, Action::Wall, 2, 0))),
    (Ask::Stage(2), Ok(Said::At(Stage::Seeking))),
    (Ask::Collect(2), Err(Refusal::Stage)),
    (Ask::Back(2), Err(Refusal::Stage)),
    (Ask::Row(2, 0), Err(Refusal::Stage)),
    (Ask::Step(2), Ok(Said::Told(2, Action::Wipe, 1, 1))),
    (Ask::Step(2), Ok(Said::Told(2, Action::Without, 1, 0))),
    (Ask::Stage(2), Ok(Said::At(Stage::Without))),
    (Ask::Step(2), Err(Refusal::Stage)),
    (Ask::Drive(2, 1, 0), Err(Refusal::Stage)),
    (Ask::Withdraw(2), Err(Refusal::Stage)),
    (Ask::Back(2), Err(Refusal::Stage)),
    (Ask::Row(2, 0), Err(Refusal::Stage)),
    (Ask::Book(0, 3), Ok(Said::Figure(3))),
    (Ask::Drive(3, 3, 9), Ok(Said::Drove(3, Stage::Seeking))),
    (Ask::Withdraw(3), Ok(Said::Done)),
    (Ask::Stage(3), Ok(Said::At(Stage::Closing))),
    (Ask::Collect(3), Err(Refusal::Stage)),
    (Ask::Withdraw(3), Err(Refusal::Stage)),
    (Ask::Back(3), Err(Refusal::Stage)),
    (Ask::Row(3, 0), Err(Refusal::Stage)),
    (Ask::Drive(3, 0, 0), Err(Refusal::Full)),
    (Ask::Drive(3, 1, 9), Ok(Said::Drove(1, Stage::Closing))),
    (Ask::Drive(3, 2, 9), Ok(Said::Drove(1, Stage::Idle))),
    (Ask::Back(1), Ok(Said::Done)),
    (Ask::Stage(1), Ok(Said::At(Stage::Closing))),
    (Ask::Collect(1), Err(Refusal::Stage)),
    (Ask::Withdraw(1), Err(Refusal::Stage)),
    (Ask::Back(1), Err(Refusal::Stage)),
    (Ask::Row(1, 0), Err(Refusal::Stage)),
    (Ask::Row(1, 2), Err(Refusal::Stage)),
    (Ask::Drive(1, 9, 9), Ok(Said::Drove(2, Stage::Idle))),
    (Ask::Collect(2), Ok(Said::Window(None))),
];

// A drive ends at its budget, at a full journal, or with the search; a full journal is refused, even
// if no step is to be made.
const JOURNALS: &[(Ask, Heard)] = &[
    (Ask::Open(1, 9, 1, 0, 1), Ok(Said::Done)),
    (Ask::Book(0, 9), Ok(Said::Figure(1))),
    (Ask::Drive(1, 1, 0), Err(Refusal::Full)),
    (Ask::Drive(1, 0, 0), Err(Refusal::Full)),
    (Ask::Drive(1, 4294967295, 0), Err(Refusal::Full)),
    (Ask::Drive(1, 0, 1), Ok(Said::Drove(0, Stage::Seeking))),
    (Ask::Show(0), Ok(Said::Figure(0))),
    (
        Ask::Drive(1, 4294967295, 1),
        Ok(Said::Drove(1, Stage::Seeking)),
    ),
    (Ask::Drive(1, 1, 4), Ok(Said::Drove(1, Stage::Seeking))),
    (Ask::Drive(1, 3, 3), Ok(Said::Drove(3, Stage::Seeking))),
    (Ask::Show(4), Ok(Said::Figure(1))),
    (Ask::Show(5), Ok(Said::Figure(0))),
    (Ask::Drive(1, 4, 3), Ok(Said::Drove(3, Stage::Seeking))),
    (Ask::Drive(1, 2, 3), Ok(Said::Drove(2, Stage::Granted))),
    (Ask::Drive(1, 1, 0), Err(Refusal::Stage)),
    (Ask::Collect(1), Ok(Said::Window(Some((0, 9))))),
    (Ask::Back(1), Ok(Said::Done)),
    (Ask::Drive(1, 4294967295, 0), Err(Refusal::Full)),
    (
        Ask::Drive(1, 4294967295, 9),
        Ok(Said::Drove(9, Stage::Idle)),
    ),
];

// A call that names a number is refused for the number, for its stage and for a full journal.
#[test]
fn named_numbers(rt: HostRuntime) -> Result<(), Fail> {
    play(&Prefixed::new(&rt, "numbers"), rt.alloc(), NUMBERS)?;
    play(&Prefixed::new(&rt, "stages"), rt.alloc(), STAGES)?;
    play(&Prefixed::new(&rt, "journals"), rt.alloc(), JOURNALS)
}

// A board never opened has one row, one column and one place, and its numbers begin with 1.
const NEVER_OPENED: &[(Ask, Heard)] = &[
    (Ask::InUse, Ok(Said::Figure(0))),
    (Ask::Show(0), Ok(Said::Figure(0))),
    (Ask::Show(1), Err(Refusal::Columns)),
    (Ask::Stage(1), Ok(Said::At(Stage::Idle))),
    (Ask::Step(1), Err(Refusal::Unknown)),
    (Ask::Book(0, 2), Err(Refusal::Columns)),
    (Ask::Book(1, 1), Err(Refusal::Columns)),
    (Ask::Open(0, 0, 0, 0, 0), Err(Refusal::Limits)),
    (Ask::Book(0, 1), Ok(Said::Figure(1))),
    (Ask::Seen(1), Ok(Said::Figure(0))),
    (Ask::Book(0, 1), Err(Refusal::Places)),
    (Ask::Step(1), Ok(Said::Told(1, Action::Mark, 0, 1))),
    (Ask::Show(0), Ok(Said::Figure(1))),
    (Ask::Step(1), Ok(Said::Told(1, Action::Grant, 0, 0))),
    (Ask::Collect(1), Ok(Said::Window(Some((0, 1))))),
    (Ask::Row(1, 0), Ok(Said::Figure(1))),
    (Ask::Back(1), Ok(Said::Done)),
    (Ask::Step(1), Ok(Said::Told(1, Action::Wipe, 0, 1))),
    (Ask::Book(0, 1), Ok(Said::Figure(2))),
    (Ask::Seen(2), Ok(Said::Figure(1))),
];

// An opening takes all tickets and marks off, and the hand-back count with them. Before the second
// one, ticket 10 is closing, 11 granted, 12 seeking, 13 out and 14 without a window.
const OPENED_AGAIN: &[(Ask, Heard)] = &[
    (Ask::Open(2, 3, 5, 9, 10), Ok(Said::Done)),
    (Ask::Book(0, 2), Ok(Said::Figure(10))),
    (Ask::Drive(10, 9, 9), Ok(Said::Drove(3, Stage::Granted))),
    (Ask::Collect(10), Ok(Said::Window(Some((0, 2))))),
    (Ask::Book(0, 1), Ok(Said::Figure(11))),
    (Ask::Drive(11, 9, 9), Ok(Said::Drove(2, Stage::Granted))),
    (Ask::Book(2, 1), Ok(Said::Figure(12))),
    (Ask::Book(2, 1), Ok(Said::Figure(13))),
    (Ask::Drive(13, 9, 9), Ok(Said::Drove(2, Stage::Granted))),
    (Ask::Collect(13), Ok(Said::Window(Some((2, 1))))),
    (Ask::Book(0, 3), Ok(Said::Figure(14))),
    (Ask::Drive(14, 9, 9), Ok(Said::Drove(2, Stage::Without))),
    (Ask::Back(10), Ok(Said::Done)),
    (Ask::Step(12), Ok(Said::Told(12, Action::Mark, 2, 2))),
    (Ask::Show(2), Ok(Said::Figure(2))),
    (Ask::InUse, Ok(Said::Figure(5))),
    (Ask::Open(2, 3, 65, 9, 10), Err(Refusal::Limits)),
    (Ask::Stage(14), Ok(Said::At(Stage::Without))),
    (Ask::Step(10), Ok(Said::Told(10, Action::Wipe, 1, 1))),
    (Ask::Open(2, 3, 5, 9, 12), Ok(Said::Done)),
    (Ask::InUse, Ok(Said::Figure(0))),
    (Ask::Show(0), Ok(Said::Figure(0))),
    (Ask::Show(2), Ok(Said::Figure(0))),
    (Ask::Stage(12), Ok(Said::At(Stage::Idle))),
    (Ask::Step(10), Err(Refusal::Unknown)),
    (Ask::Collect(11), Err(Refusal::Unknown)),
    (Ask::Withdraw(12), Err(Refusal::Unknown)),
    (Ask::Back(13), Err(Refusal::Unknown)),
    (Ask::Collect(14), Err(Refusal::Unknown)),
    (Ask::Book(0, 3), Ok(Said::Figure(12))),
    (Ask::Seen(12), Ok(Said::Figure(0))),
    (Ask::Drive(12, 9, 9), Ok(Said::Drove(4, Stage::Granted))),
    (Ask::Collect(12), Ok(Said::Window(Some((0, 3))))),
    (Ask::Open(16, 256, 64, 64, 1000000000), Ok(Said::Done)),
    (Ask::Show(0), Ok(Said::Figure(0))),
    (Ask::Show(255), Ok(Said::Figure(0))),
    (Ask::Book(255, 1), Ok(Said::Figure(1000000000))),
    (Ask::Seen(1000000000), Ok(Said::Figure(0))),
    (Ask::Book(0, 64), Ok(Said::Figure(1000000001))),
];

#[test]
fn openings(rt: HostRuntime) -> Result<(), Fail> {
    play(
        &Prefixed::new(&rt, "never opened"),
        rt.alloc(),
        NEVER_OPENED,
    )?;
    play(
        &Prefixed::new(&rt, "opened again"),
        rt.alloc(),
        OPENED_AGAIN,
    )
}

// The numbers that answers use for refusals, and reports for actions.
#[test]
fn numbers_of_words(rt: HostRuntime) {
    let refusals = [
        (Refusal::Limits, 1),
        (Refusal::Columns, 2),
        (Refusal::Numbers, 3),
        (Refusal::Places, 4),
        (Refusal::Unknown, 5),
        (Refusal::Stage, 6),
        (Refusal::Full, 7),
        (Refusal::Verb, 8),
        (Refusal::Fields, 9),
        (Refusal::Figure, 10),
        (Refusal::Line, 11),
        (Refusal::Page, 12),
        (Refusal::Grant, 13),
    ];
    let actions = [
        (Action::Wipe, 1),
        (Action::Over, 2),
        (Action::Without, 3),
        (Action::Grant, 4),
        (Action::Mark, 5),
        (Action::Wall, 6),
    ];
    assert!(&rt; refusals.iter().all(|(refusal, n)| refusal.number() == *n));
    assert!(&rt; actions.iter().all(|(action, n)| action.number() == *n));
}
