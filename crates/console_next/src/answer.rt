//! The answer to one line.
ghost use Rattle.std.specs.Prelude.{◌≡◌, ◌≤◌, length, IfOk};
ghost use Rattle.lists.specs.Reading.{contents_of};
ghost use Rattle.board.specs.Face.{rack_in};
ghost use Rattle.console_next.specs.Calls.{Continues};
ghost use Rattle.console_next.specs.Answers.{answered};

use crate::call::call;
use crate::order::read_order;
use board::board::Board;
use board::chooser::Chooser;
use lists::journal::Journal;
use rules::report::Report;
use text::fault::Fault;
use text::page::check;

/// Answers a line on the page, and tells how long the answer is; or the fault for which the line is
/// refused, which leaves all as it was. The journal is not emptied.
pub fn answer<C: Chooser>(
    board: &mut Board,
    chooser: &mut C,
    journal: &mut Journal<Report>,
    line: &[u8],
    page: &mut [u8],
) -> Result<usize, Fault>
    ensures answer { result ≡ (answered C.Chooser.meaning line.now page.old (rack_in board.old) (contents_of journal.old) chooser.old).answer }
    ensures page { page.new ≡ (answered C.Chooser.meaning line.now page.old (rack_in board.old) (contents_of journal.old) chooser.old).page }
    ensures rack { rack_in board.new ≡ (answered C.Chooser.meaning line.now page.old (rack_in board.old) (contents_of journal.old) chooser.old).rack }
    ensures chooser { chooser.new ≡ (answered C.Chooser.meaning line.now page.old (rack_in board.old) (contents_of journal.old) chooser.old).held }
    ensures journal { contents_of journal.new ≡ (answered C.Chooser.meaning line.now page.old (rack_in board.old) (contents_of journal.old) chooser.old).journal }
    ensures place { journal.new.slots.ghost_name ≡ journal.old.slots.ghost_name }
    ensures fits { IfOk result (λ n. n ≤ length page.old) }
    ensures history { Continues (answered C.Chooser.meaning line.now page.old (rack_in board.old) (contents_of journal.old) chooser.old).tells (rack_in board.old) (rack_in board.new) }
{
    check(page)?;
    let order = read_order(line)?;
    let reply = call(board, chooser, journal, order)?;
    Ok(reply.put(page))
}
