//! Which ticket a step works on: rules 1 and 2.
ghost use Rattle.std.specs.Prelude.{◌≡◌, ℕ, suc, ◌-◌, ◌<◌, true, vec_len, nat_lt};
ghost use Rattle.rules.specs.Rack.{soft};
ghost use Rattle.rules.specs.Step.{led as leading};
ghost use Rattle.board.specs.Due.{SoftPlace, Due};
ghost use Rattle.board.specs.Face.{rack_in};
ghost use Rattle.board.specs.Reading.{rack_of, ticket_at, mask_seen, Passes, walk_end};

use crate::board::Board;
use crate::look::{booked_in, holder_in};
use crate::tables::Tables;
use lists::foremost::foremost;
use rules::refusal::Refusal;
use rules::ticket::Ticket;

/// What a step finds ahead of a ticket: the vacant rows of the column, and the place of the ticket
/// that the step is passed on to, if this one is blocked.
#[derive(Clone, Copy)]
pub(crate) struct Look {
    pub(crate) mask: u16,
    pub(crate) holder: Option<usize>,
}

/// The place of the ticket that a step works on, with the vacant rows of the column ahead of it.
#[derive(Clone, Copy)]
pub(crate) struct Spot {
    pub(crate) place: usize,
    pub(crate) mask: u16,
}

impl Tables {
    /// The first ticket is more than the lead ahead of the second.
    fn runs_ahead(&self, t: Ticket, oldest: Ticket) -> bool
        ensures { result ≡ nat_lt self.now.sizes.lead (t.number - oldest.number) }
    {
        t.number.saturating_sub(oldest.number) > self.sizes.lead
    }

    /// The place of the soft ticket with this number, or why there is none.
    pub(crate) fn soft_place(&self, number: u32) -> Result<usize, Refusal>
        ensures { SoftPlace (rack_of self.now) number result }
    {
        let (i, t) = self.named(number)?;
        if !t.phase.is_soft() {
            return Err(Refusal::Stage);
        }
        Ok(i)
    }
}

impl Board {
    /// One look at the column ahead of a ticket.
    fn look(&self, t: Ticket) -> Look
        ensures mask { result.mask ≡ mask_seen (rack_in self.now) t }
        ensures passes { Passes (rack_in self.now) t result.holder }
    {
        let tables = &self.tables;
        if !tables.looks(t) {
            return Look {
                mask: 0,
                holder: None,
            };
        }
        let column = t.first + t.marks;
        let mask = tables.column(column).vacant_rows();
        if mask != 0 {
            return Look { mask, holder: None };
        }
        if booked_in(&tables.tickets, column) >= tables.sizes.rows as usize {
            return Look { mask, holder: None };
        }
        Look {
            mask,
            holder: holder_in(&tables.tickets, column),
        }
    }

    /// Rule 2: from a ticket on, until one is not blocked.
    fn walk(&self, from: usize) -> Spot
        requires { from < vec_len self.now.tables.tickets }
        ensures within { result.place < vec_len self.now.tables.tickets }
        ensures is { ticket_at (rack_in self.now) result.place ≡ walk_end (suc self.now.tables.sizes.columns) (rack_in self.now) (ticket_at (rack_in self.now) from) }
        ensures mask { result.mask ≡ mask_seen (rack_in self.now) (ticket_at (rack_in self.now) result.place) }
    {
        let mut place = from;
        for _turn in 0..self.tables.sizes.columns + 1 {
            let look = self.look(self.tables.ticket(place));
            match look.holder {
                Some(next) => place = next,
                None => return Spot {
                    place,
                    mask: look.mask,
                },
            }
        }
        let look = self.look(self.tables.ticket(place));
        Spot {
            place,
            mask: look.mask,
        }
    }

    /// Rule 1: the place of the oldest soft ticket, if the one at this place is more than the lead
    /// ahead of it; otherwise this place.
    fn led(&self, i: usize) -> usize
        requires within { i < vec_len self.now.tables.tickets }
        requires is_soft { soft (ticket_at (rack_in self.now) i).phase ≡ true }
        ensures within { result < vec_len self.now.tables.tickets }
        ensures is { ticket_at (rack_in self.now) result ≡ leading (rack_in self.now) (ticket_at (rack_in self.now) i) }
    {
        let tables = &self.tables;
        let Some(oldest) = foremost(&tables.tickets) else {
            return i;
        };
        if tables.runs_ahead(tables.ticket(i), tables.ticket(oldest)) {
            oldest
        } else {
            i
        }
    }

    /// The ticket that a step naming this number works on, or why there is none.
    pub(crate) fn due(&self, number: u32) -> Result<Spot, Refusal>
        ensures { Due (rack_in self.now) number result }
    {
        let i = self.tables.soft_place(number)?;
        Ok(self.walk(self.led(i)))
    }
}
