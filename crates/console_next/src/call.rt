//! An order carried out on the board.
ghost use Rattle.std.specs.Prelude.{◌≡◌};
ghost use Rattle.lists.specs.Reading.{contents_of};
ghost use Rattle.board.specs.Face.{rack_in};
ghost use Rattle.console_next.specs.Calls.{called, Continues};

use crate::order::Order;
use crate::reply::Reply;
use board::board::Board;
use board::chooser::Chooser;
use lists::journal::Journal;
use rules::refusal::Refusal;
use rules::report::Report;

/// Makes the call of the board that an order asks for.
pub(crate) fn call<C: Chooser>(
    board: &mut Board,
    chooser: &mut C,
    journal: &mut Journal<Report>,
    order: Order,
) -> Result<Reply, Refusal>
    ensures reply { result ≡ (called C.Chooser.meaning (rack_in board.old) (contents_of journal.old) chooser.old order).reply }
    ensures rack { rack_in board.new ≡ (called C.Chooser.meaning (rack_in board.old) (contents_of journal.old) chooser.old order).rack }
    ensures chooser { chooser.new ≡ (called C.Chooser.meaning (rack_in board.old) (contents_of journal.old) chooser.old order).held }
    ensures journal { contents_of journal.new ≡ (called C.Chooser.meaning (rack_in board.old) (contents_of journal.old) chooser.old order).journal }
    ensures place { journal.new.slots.ghost_name ≡ journal.old.slots.ghost_name }
    ensures history { Continues (called C.Chooser.meaning (rack_in board.old) (contents_of journal.old) chooser.old order).tells (rack_in board.old) (rack_in board.new) }
{
    match order {
        Order::Open { sizes, first } => {
            board.open(sizes, first)?;
            Ok(Reply::Done)
        }
        Order::Book(request) => Ok(Reply::Number(board.book(request)?)),
        Order::Step(number) => Ok(Reply::Stepped(board.step(number, chooser)?)),
        Order::Drive { number, budget } => {
            let (steps, stage) = board.drive(number, budget, journal, chooser)?;
            Ok(Reply::Driven { steps, stage })
        }
        Order::Collect(number) => {
            let span = board.collect(number)?;
            Ok(Reply::Collected { number, span })
        }
        Order::Drop(number) => {
            board.withdraw(number)?;
            Ok(Reply::Done)
        }
        Order::Back(number) => {
            board.back(number)?;
            Ok(Reply::Done)
        }
        Order::Show(column) => Ok(Reply::Marks(board.show(column)?)),
    }
}
