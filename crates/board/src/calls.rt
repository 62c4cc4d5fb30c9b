//! The calls that book, and that take what was decided: each by its definition.
ghost use Rattle.std.specs.Prelude.{◌≡◌, [], Ok};
ghost use Rattle.rules.specs.Calls.{openable as can_open, open' as open_call, admission as admitted, book as book_call, collect as collect_call, drop' as drop_call, back as back_call, withdrawn as after_drop};
ghost use Rattle.rules.specs.History.{Event, Reaches};
ghost use Rattle.rules.specs.Laws.{told, Carries};
ghost use Rattle.board.specs.Acting.{list_of};
ghost use Rattle.board.specs.Face.{rack_in, unless};
ghost use Rattle.board.specs.Reading.{rack_of};

use crate::board::Board;
use crate::tables::Tables;
use rules::rack::{
    LAST_FIRST, LAST_NUMBER, LONGEST_SPAN, MOST_COLUMNS, MOST_LEAD, MOST_PLACES, MOST_ROWS, Sizes,
};
use rules::refusal::Refusal;
use rules::slot::Slot;
use rules::span::Span;
use rules::ticket::{Phase, Request, Ticket};

/// The limits of an opening.
fn openable(sizes: Sizes, first: u32) -> bool
    ensures { result ≡ can_open sizes first }
{
    (1..=MOST_ROWS).contains(&sizes.rows)
        && (1..=MOST_COLUMNS).contains(&sizes.columns)
        && (1..=MOST_PLACES).contains(&sizes.places)
        && (0..=MOST_LEAD).contains(&sizes.lead)
        && (1..=LAST_FIRST).contains(&first)
}

/// What a ticket becomes when its booking is withdrawn: it leaves, if it has no mark.
fn withdrawn(t: Ticket) -> Option<Ticket>
    ensures { after_drop t ≡ list_of result }
{
    if t.marks == 0 {
        return None;
    }
    Some(Ticket {
        phase: Phase::Closing,
        ..t
    })
}

impl Tables {
    /// Whether a booking is taken, or why not.
    fn admit(&self, request: Request) -> Result<(), Refusal>
        ensures { result ≡ unless (admitted (rack_of self.now) request) }
    {
        let end = u64::from(request.start) + u64::from(request.length);
        if !((1..=LONGEST_SPAN).contains(&request.length) && end <= u64::from(self.sizes.columns)) {
            return Err(Refusal::Columns);
        }
        if self.next > LAST_NUMBER {
            return Err(Refusal::Numbers);
        }
        if self.tickets.len() >= self.sizes.places as usize {
            return Err(Refusal::Places);
        }
        Ok(())
    }
}

impl Board {
    /// Opens the board anew, whatever stood on it, and starts a new list of calls.
    pub fn open(&mut self, sizes: Sizes, first: u32) -> Result<(), Refusal>
        ensures answer { result ≡ (open_call (rack_in self.old) sizes first).answer }
        ensures rack { rack_in self.new ≡ (open_call (rack_in self.old) sizes first).rack }
        ensures history { result ≡ Ok tt → Reaches [] (rack_in self.new) }
    {
        if !openable(sizes, first) {
            return Err(Refusal::Limits);
        }
        let tables = &mut self.tables;
        tables.tickets.clear();
        tables.slots.clear();
        let _ = tables
            .slots
            .resize(sizes.columns as usize * sizes.rows as usize, Slot::Vacant);
        tables.sizes = sizes;
        tables.first = first;
        tables.next = first;
        tables.handbacks = 0;
        Ok(())
    }

    /// Books adjacent columns from a start on, and answers the booking's number.
    pub fn book(&mut self, request: Request) -> Result<u32, Refusal>
        ensures answer { result ≡ (book_call (rack_in self.old) request).answer }
        ensures rack { rack_in self.new ≡ (book_call (rack_in self.old) request).rack }
        ensures history { Carries (told (λ n. Event.taken n request) result) (rack_in self.old) (rack_in self.new) }
    {
        self.tables.admit(request)?;
        let number = self.tables.next;
        self.tables.tickets.push_reserved(Ticket {
            number,
            request,
            phase: Phase::Forward,
            first: request.start,
            marks: 0,
            seen: self.tables.handbacks,
        });
        self.tables.next = number + 1;
        Ok(number)
    }

    /// Takes a decided booking's answer: its span, which is then out, or nothing.
    pub fn collect(&mut self, number: u32) -> Result<Option<Span>, Refusal>
        ensures answer { result ≡ (collect_call (rack_in self.old) number).answer }
        ensures rack { rack_in self.new ≡ (collect_call (rack_in self.old) number).rack }
        ensures history { Carries (told (λ _. Event.collected number) result) (rack_in self.old) (rack_in self.new) }
    {
        let (i, t) = self.tables.named(number)?;
        match t.phase {
            Phase::Granted => {
                let out = Ticket {
                    phase: Phase::Out,
                    ..t
                };
                self.tables.replace(i, t, Some(out));
                Ok(Some(t.window()))
            }
            Phase::Without => {
                self.tables.replace(i, t, None);
                Ok(None)
            }
            Phase::Forward | Phase::Backing(_) | Phase::Out | Phase::Closing => Err(Refusal::Stage),
        }
    }

    /// Withdraws an undecided booking (drop).
    pub fn withdraw(&mut self, number: u32) -> Result<(), Refusal>
        ensures answer { result ≡ (drop_call (rack_in self.old) number).answer }
        ensures rack { rack_in self.new ≡ (drop_call (rack_in self.old) number).rack }
        ensures history { Carries (told (λ _. Event.dropped number) result) (rack_in self.old) (rack_in self.new) }
    {
        let (i, t) = self.tables.named(number)?;
        match t.phase {
            Phase::Forward | Phase::Backing(_) => {
                self.tables.replace(i, t, withdrawn(t));
                Ok(())
            }
            Phase::Without | Phase::Granted | Phase::Out | Phase::Closing => Err(Refusal::Stage),
        }
    }

    /// Hands a collected grant back.
    pub fn back(&mut self, number: u32) -> Result<(), Refusal>
        ensures answer { result ≡ (back_call (rack_in self.old) number).answer }
        ensures rack { rack_in self.new ≡ (back_call (rack_in self.old) number).rack }
        ensures history { Carries (told (λ _. Event.returned number) result) (rack_in self.old) (rack_in self.new) }
    {
        let (i, t) = self.tables.named(number)?;
        match t.phase {
            Phase::Out => {
                let closing = Ticket {
                    phase: Phase::Closing,
                    ..t
                };
                self.tables.replace(i, t, Some(closing));
                self.tables.handbacks += 1;
                Ok(())
            }
            Phase::Forward | Phase::Backing(_) | Phase::Without | Phase::Granted | Phase::Closing =>
                Err(Refusal::Stage),
        }
    }
}
