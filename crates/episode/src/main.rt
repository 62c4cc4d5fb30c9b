//! One booking from its slip to its hand-back, and what its window was.
#![tactic(auto)]

mod visit;

use crate::visit::visit;
use board::board::Board;
use board::lowest::Lowest;
use lists::journal::Journal;
use rules::rack::Sizes;
use rules::report::Report;
use rules::ticket::Request;
use std::io;

fn main(rt: HostRuntime) -> io::Result<()> {
    let mut board = Board::new(rt.alloc())?;
    let _ = board.open(
        Sizes {
            rows: 2,
            columns: 6,
            places: 3,
            lead: 1,
        },
        1,
    );
    let mut places = [Report::default(); 64];
    let mut reports = Journal::new(&mut places);
    let mut columns = [0; 64];
    let mut rows = Journal::new(&mut columns);
    match visit(
        &mut board,
        Request {
            start: 1,
            length: 3,
        },
        &mut reports,
        &mut Lowest,
        &mut rows,
    ) {
        Ok(Some(span)) => println!(rt; "window {} {}", span.first, span.length)?,
        Ok(None) => println!(rt; "no window")?,
        Err(refusal) => println!(rt; "refused {}", refusal.number())?,
    }
    let told = rows.entries();
    println!(rt; "steps {} rows {:?}", reports.len(), told)
}
