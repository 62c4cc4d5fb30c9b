//! Writing a sheet on a page.
ghost use Rattle.std.specs.Prelude.{◌≡◌, ◌+◌, ◌^◌, ◌<◌, ◌≤◌, length, decimal};
ghost use Rattle.text.specs.Pages.{Puts};
ghost use Rattle.board.specs.Face.{rack_in};
ghost use Rattle.sheets.specs.Grants.{grant_told, grant_text, out_among, sheet_long, grants_out, sheet_text, sheet_answer, page_after};
ghost use Rattle.sheets.specs.Sheets.{ReadsBack};

use crate::grant::GrantLine;
use board::board::Board;
use itoa::Buffer;
use rules::refusal::Refusal;
use rules::ticket::{Phase, Ticket};
use text::fault::Fault;
use text::page::{Field, put_line};

/// The grant of a ticket that is out.
fn grant_of(ticket: Ticket) -> Option<GrantLine>
    ensures { result ≡ grant_told ticket }
{
    matches!(ticket.phase, Phase::Out).then_some(GrantLine {
        number: ticket.number,
        span: ticket.window(),
    })
}

/// How many digits a figure has.
fn width(n: u32) -> usize
    ensures is { result ≡ length (decimal n) }
    ensures few { result ≤ 10 }
{
    if n < 10 {
        return 1;
    }
    if n < 100 {
        return 2;
    }
    let mut digits = Buffer::new();
    digits.format(n).len()
}

/// What a line has beside its figures: the word, three tabs and the line feed.
const FRAME: usize = 9;

/// How long the line of a grant is.
fn line_len(grant: GrantLine) -> usize
    ensures { result ≡ length (grant_text grant) }
{
    FRAME + width(grant.number) + width(grant.span.first) + width(grant.span.length)
}

/// How long the sheet is.
fn sheet_len(tickets: &[Ticket]) -> usize
    requires { sheet_long tickets.now < 2 ^ 64 }
    ensures { result ≡ sheet_long tickets.now }
{
    tickets
        .iter()
        .copied()
        .filter_map(grant_of)
        .map(line_len)
        .sum()
}

/// Writes the line of a grant, and answers the place after it.
fn put_grant(page: &mut [u8], at: usize, grant: GrantLine) -> usize
    requires { at + length (grant_text grant) ≤ length page.old }
    ensures { Puts page.old at (grant_text grant) page.new result }
{
    let fields = [
        Field::Word(b"grant"),
        grant.number.into(),
        grant.span.first.into(),
        grant.span.length.into(),
    ];
    put_line(page, at, &fields)
}

/// Writes the sheet from the start of the page on, and answers the place after it.
fn put_sheet(page: &mut [u8], tickets: &[Ticket]) -> usize
    requires { length (sheet_text (out_among tickets.now)) ≤ length page.old }
    ensures { Puts page.old 0 (sheet_text (out_among tickets.now)) page.new result }
{
    let mut end = 0;
    for ticket in tickets {
        if let Some(grant) = grant_of(*ticket) {
            end = put_grant(page, end, grant);
        }
    }
    end
}

/// Writes the sheet of a board from the first byte of the page on, and answers its length. A page that is shorter than the sheet
/// is refused, and stays as it was.
pub fn write_sheet(board: &Board, page: &mut [u8]) -> Result<usize, Fault>
    ensures answer { result ≡ sheet_answer (sheet_text (grants_out (rack_in board.now))) page.old }
    ensures page { page.new ≡ page_after (sheet_text (grants_out (rack_in board.now))) page.old }
    ensures reads_back { ReadsBack (sheet_text (grants_out (rack_in board.now))) (grants_out (rack_in board.now)) }
{
    let tickets = board.tickets();
    if page.len() < sheet_len(tickets) {
        return Err(Refusal::Page.into());
    }
    Ok(put_sheet(page, tickets))
}
