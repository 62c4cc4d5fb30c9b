//! What stands in the tables: a ticket at a place, a column's slots.
ghost use Rattle.std.specs.Prelude.{◌≡◌, ◌<◌, vec_len};
ghost use Rattle.rules.specs.Rack.{cells as cells_in};
ghost use Rattle.rules.specs.Step.{past};
ghost use Rattle.board.specs.Reading.{rack_of, ticket_at, looks as looks_ahead, Named};

use crate::column::Column;
use crate::look::place_of;
use crate::tables::Tables;
use rules::refusal::Refusal;
use rules::ticket::Ticket;

impl Tables {
    pub(crate) fn ticket(&self, i: usize) -> Ticket
        requires { i < vec_len self.now.tickets }
        ensures { result ≡ ticket_at (rack_of self.now) i }
    {
        self.tickets[i]
    }

    /// The slots of a column.
    pub(crate) fn column(&self, column: u32) -> Column<'_>
        requires { column < self.now.sizes.columns }
        ensures { result.slots.now ≡ cells_in (rack_of self.now) column }
    {
        let rows = self.sizes.rows as usize;
        let from = column as usize * rows;
        Column {
            slots: &self.slots[from..from + rows],
        }
    }

    /// Its window would pass the last column.
    pub(crate) fn is_past(&self, t: Ticket) -> bool
        ensures { result ≡ past (rack_of self.now).sizes t }
    {
        u64::from(t.first) + u64::from(t.request.length) > u64::from(self.sizes.columns)
    }

    pub(crate) fn looks(&self, t: Ticket) -> bool
        ensures { result ≡ looks_ahead (rack_of self.now) t }
    {
        t.phase.is_forward() && t.marks < t.request.length && !self.is_past(t)
    }

    /// The place and the ticket of this number.
    pub(crate) fn named(&self, number: u32) -> Result<(usize, Ticket), Refusal>
        ensures { Named (rack_of self.now) number result }
    {
        let Some(i) = place_of(&self.tickets, number) else {
            return Err(Refusal::Unknown);
        };
        Ok((i, self.ticket(i)))
    }
}
