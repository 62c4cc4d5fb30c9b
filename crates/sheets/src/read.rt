//! Reading a sheet into a list.
ghost use Rattle.std.specs.Prelude.{◌≡◌, slice_set};
ghost use Rattle.sheets.specs.Sheets.{in_limits, grant_read, numbered, sheet_read, counted, Lays, read_into, OneSheetForGrants};

use crate::grant::{GrantLine, GrantWord};
use crate::lines::Lines;
use rules::rack::{LAST_NUMBER, LONGEST_SPAN, MOST_COLUMNS};
use rules::refusal::Refusal;
use rules::span::Span;
use text::fault::{Fault, LineFault};
use text::head::read_line;

/// The grant again, if it is within the limits, after a line with the number `last`.
fn check_grant(grant: GrantLine, last: u32) -> Result<GrantLine, Fault>
    ensures { result ≡ in_limits last grant }
{
    if grant.number <= last || grant.number > LAST_NUMBER {
        return Err(Fault::new(Refusal::Grant, 2, 0));
    }
    if grant.span.length < 1 || grant.span.length > LONGEST_SPAN {
        return Err(Fault::new(Refusal::Grant, 4, 0));
    }
    if grant.span.first > MOST_COLUMNS - grant.span.length {
        return Err(Fault::new(Refusal::Grant, 3, 0));
    }
    Ok(grant)
}

/// Reads a line, after one with the number `last`.
fn read_grant(line: &[u8], last: u32) -> Result<GrantLine, Fault>
    ensures { result ≡ grant_read last line.now }
{
    let (_word, figures) = read_line::<GrantWord>(line)?;
    let grant = GrantLine {
        number: figures[0],
        span: Span {
            first: figures[1],
            length: figures[2],
        },
    };
    check_grant(grant, last)
}

/// Reads a line, whose number its fault tells.
fn read_numbered(line: &[u8], number: u64, last: u32) -> Result<GrantLine, LineFault>
    ensures { result ≡ numbered number (grant_read last line.now) }
{
    read_grant(line, last).map_err(|fault| LineFault {
        line: number,
        fault,
    })
}

/// Puts a grant in its place, if the list has it.
fn place(list: &mut [GrantLine], i: usize, grant: GrantLine)
    ensures { list.new ≡ slice_set list.old i grant }
{
    if i < list.len() {
        list[i] = grant;
    }
}

/// Reads every line, puts the grants in their places as far as the list has them, and answers how many grants there are.
fn scan(sheet: &[u8], list: &mut [GrantLine]) -> Result<usize, LineFault>
    ensures answer { result ≡ counted (sheet_read sheet.now) }
    ensures list { Lays (sheet_read sheet.now) list.old list.new }
{
    let mut count = 0;
    let mut last = 0;
    for (i, line) in (Lines { rest: sheet }).enumerate() {
        let grant = read_numbered(line, i as u64 + 1, last)?;
        place(list, i, grant);
        last = grant.number;
        count = i + 1;
    }
    Ok(count)
}

/// Reads a sheet into the list, from its first place on, and answers how many grants there are. Each line is tried in full before
/// the next; then the list must have room. A refusal leaves the list as it was.
pub fn read_sheet(sheet: &[u8], list: &mut [GrantLine]) -> Result<usize, LineFault>
    ensures answer { result ≡ (read_into sheet.now list.old).answer }
    ensures list { list.new ≡ (read_into sheet.now list.old).list }
    ensures one_sheet { OneSheetForGrants }
{
    let count = scan(sheet, &mut [])?;
    if list.len() < count {
        return Err(LineFault {
            line: 0,
            fault: Refusal::Full.into(),
        });
    }
    scan(sheet, list)
}
