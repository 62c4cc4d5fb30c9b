//! A board never opened, and what can be asked of a board. No question changes it.
ghost use Rattle.std.specs.Prelude.{◌≡◌, [], IfOk};
ghost use Rattle.rules.specs.Rack.{never_opened};
ghost use Rattle.rules.specs.Calls.{row as row_call, show as show_call, stage_at};
ghost use Rattle.rules.specs.History.{Reaches};
ghost use Rattle.rules.specs.Sound.{Reached};
ghost use Rattle.board.specs.Face.{rack_in};

use crate::board::Board;
use crate::look::place_of;
use crate::tables::Tables;
use rules::rack::{MOST_COLUMNS, MOST_PLACES, MOST_ROWS, Sizes};
use rules::refusal::Refusal;
use rules::slot::Slot;
use rules::ticket::{Phase, Stage, Ticket};
use std::alloc::{AllocError, Global};

const MOST_SLOTS: usize = MOST_COLUMNS as usize * MOST_ROWS as usize;

impl Board {
    /// A board never opened, with memory for the largest one: nothing else here allocates.
    pub fn new(heap: Global) -> Result<Board, AllocError>
        ensures rack { IfOk result (λ b. rack_in b ≡ never_opened) }
        ensures history { IfOk result (λ b. Reaches [] (rack_in b)) }
    {
        let tickets = Vec::with_capacity(heap, MOST_PLACES as usize)?;
        let mut slots = Vec::with_capacity(heap, MOST_SLOTS)?;
        slots.push_reserved(Slot::Vacant);
        let tables = Tables {
            sizes: Sizes {
                rows: 1,
                columns: 1,
                places: 1,
                lead: 0,
            },
            first: 1,
            next: 1,
            handbacks: 0,
            tickets,
            slots,
        };
        Ok(Board { tables })
    }

    /// The stage that a number is in: idle where no ticket has it.
    pub fn stage(&self, number: u32) -> Stage
        ensures { result ≡ stage_at (rack_in self.now) number }
    {
        let Some(i) = place_of(&self.tables.tickets, number) else {
            return Stage::Idle;
        };
        self.tables.ticket(i).phase.stage()
    }

    /// The tickets in use, lowest number first, of a board that some list of calls has led to.
    pub fn tickets(&self) -> &[Ticket]
        ensures tickets { result.now ≡ (rack_in self.now).tickets }
        ensures reached { Reached (rack_in self.now) }
    {
        self.tables.tickets.as_slice()
    }

    /// The row marked in the window's column at this offset.
    pub fn row(&self, number: u32, offset: u32) -> Result<u32, Refusal>
        ensures { result ≡ row_call (rack_in self.now) number offset }
    {
        let (_i, t) = self.tables.named(number)?;
        match t.phase {
            Phase::Out => {
                if offset >= t.request.length {
                    return Err(Refusal::Columns);
                }
                Ok(self.tables.column(t.first + offset).row_of(t.number))
            }
            Phase::Forward | Phase::Backing(_) | Phase::Without | Phase::Granted | Phase::Closing =>
                Err(Refusal::Stage),
        }
    }

    /// How many slots of a column hold a mark.
    pub fn show(&self, column: u32) -> Result<u32, Refusal>
        ensures { result ≡ show_call (rack_in self.now) column }
    {
        if column >= self.tables.sizes.columns {
            return Err(Refusal::Columns);
        }
        Ok(self.tables.column(column).marks())
    }
}
