//! Who has marks in a column, and which ticket has a number.
ghost use Rattle.std.specs.Prelude.{◌≡◌, ◌&&◌};
ghost use Rattle.rules.specs.Rack.{named, soft};
ghost use Rattle.rules.specs.Sound.{marks_in, booked_in};
ghost use Rattle.std.specs.List.{position};

use rules::ticket::Ticket;

/// The place of the ticket with this number.
pub(crate) fn place_of(tickets: &[Ticket], number: u32) -> Option<usize>
    ensures { result ≡ position (named number) tickets.now }
{
    tickets.iter().position(|t| t.number == number)
}

pub(crate) fn marks_in(ticket: &Ticket, column: u32) -> bool
    ensures { result ≡ marks_in column ticket.now }
{
    ticket.first <= column && column - ticket.first < ticket.marks
}

/// How many tickets granted or out have a mark in the column.
pub(crate) fn booked_in(tickets: &[Ticket], column: u32) -> usize
    ensures { result ≡ booked_in column tickets.now }
{
    tickets
        .iter()
        .filter(|t| t.phase.is_hard() && marks_in(t, column))
        .count()
}

/// The place of the soft ticket with the lowest number of those with a mark in the column.
pub(crate) fn holder_in(tickets: &[Ticket], column: u32) -> Option<usize>
    ensures { result ≡ position (λ t. soft t.phase && marks_in column t) tickets.now }
{
    tickets
        .iter()
        .position(|t| t.phase.is_soft() && marks_in(t, column))
}
