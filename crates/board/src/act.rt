//! What the ticket that a step works on does: rule 3.
ghost use Rattle.std.specs.Prelude.{◌≡◌, ℕ, ◌+◌, ◌-◌, ◌*◌, ◌<◌, ◌≤◌, true, ◌∷◌, ◌++◌, length, take, drop, vec_len, ◌≢◌, slice_set};
ghost use Rattle.rules.specs.declared.slot.Slot.TheVariants.{Vacant, Marked};
ghost use Rattle.rules.specs.declared.report.Action.TheVariants.{Wipe};
ghost use Rattle.rules.specs.Rack.{put as put_in, with as with_lists, cells as cells_in, soft};
ghost use Rattle.rules.specs.Choosers.{mask_of, asked};
ghost use Rattle.rules.specs.Calls.{row_for, held_after};
ghost use Rattle.rules.specs.Step.{ahead, column_of, row_told, slots_after, action_of, after, wiped, redirect as redirects, sets_out};
ghost use Rattle.rules.specs.Sound.{Rising};
ghost use Rattle.board.specs.Face.{rack_in};
ghost use Rattle.board.specs.Reading.{rack_of, ticket_at, mask_seen};
ghost use Rattle.board.specs.Acting.{list_of, Replaced, Writes};

use crate::board::Board;
use crate::chooser::Chooser;
use crate::tables::Tables;
use rules::asked::Asked;
use rules::report::Action;
use rules::slot::Slot;
use rules::ticket::{Phase, Ticket};

/// The ticket goes forward from a column, without a mark. From its start, it has seen all hand-backs.
fn set_out(t: Ticket, column: u32, handbacks: u32) -> Ticket
    ensures { result ≡ sets_out handbacks column t }
{
    let seen = if column == t.request.start {
        handbacks
    } else {
        t.seen
    };
    Ticket {
        phase: Phase::Forward,
        first: column,
        marks: 0,
        seen,
        ..t
    }
}

/// Next it goes forward from a column: it backs out first, if it has marks.
fn redirect(t: Ticket, column: u32, handbacks: u32) -> Ticket
    ensures { result ≡ redirects handbacks column t }
{
    if t.marks == 0 {
        set_out(t, column, handbacks)
    } else {
        Ticket {
            phase: Phase::Backing(column),
            ..t
        }
    }
}

/// The ticket without its last mark. With none left, a closing ticket leaves the board, and one that
/// backs out sets out again.
fn lessened(t: Ticket, handbacks: u32) -> Option<Ticket>
    requires { 1 ≤ t.marks }
    ensures { wiped handbacks t.phase t ≡ list_of result }
{
    let fewer = Ticket {
        marks: t.marks - 1,
        ..t
    };
    match t.phase {
        Phase::Closing => {
            if t.marks <= 1 {
                return None;
            }
            Some(fewer)
        }
        Phase::Backing(next) => {
            if t.marks <= 1 {
                return Some(set_out(t, next, handbacks));
            }
            Some(fewer)
        }
        Phase::Forward | Phase::Without | Phase::Granted | Phase::Out => Some(t),
    }
}

/// What the ticket becomes by an action.
pub(crate) fn becomes(t: Ticket, action: Action, handbacks: u32) -> Option<Ticket>
    requires reach { t.first + t.marks ≤ 256 }
    requires marks { action ≡ Wipe → 1 ≤ t.marks }
    ensures { after handbacks action t ≡ list_of result }
{
    match action {
        Action::Wipe => lessened(t, handbacks),
        Action::Over => Some(redirect(t, t.request.start, handbacks)),
        Action::Without => Some(Ticket {
            phase: Phase::Without,
            ..t
        }),
        Action::Grant => Some(Ticket {
            phase: Phase::Granted,
            ..t
        }),
        Action::Mark => Some(Ticket {
            marks: t.marks + 1,
            ..t
        }),
        Action::Wall => Some(redirect(t, t.first + t.marks + 1, handbacks)),
    }
}

/// The column that the report of an action gives.
pub(crate) fn column_told(t: Ticket, action: Action) -> u32
    requires { t.first + t.marks ≤ 256 }
    ensures { result ≡ column_of action t }
{
    match action {
        Action::Wipe => (t.first + t.marks).saturating_sub(1),
        Action::Over | Action::Without => t.request.start,
        Action::Grant => t.first,
        Action::Mark | Action::Wall => t.first + t.marks,
    }
}

impl Tables {
    /// The ticket at a place becomes another, or leaves.
    pub(crate) fn replace(&mut self, i: usize, t: Ticket, by: Option<Ticket>)
        requires within { i < vec_len self.old.tickets }
        requires is { t ≡ ticket_at (rack_of self.old) i }
        requires rising { Rising self.old.first self.old.next (rack_of self.old).tickets }
        ensures { Replaced (rack_of self.old) t by (rack_of self.new) }
    {
        match by {
            Some(u) => self.tickets[i] = u,
            None => {
                let _ = self.tickets.remove(i);
            }
        }
    }

    fn put_slot(&mut self, column: u32, row: u32, slot: Slot)
        requires { (column < self.old.sizes.columns) × ((1 ≤ row) × (row ≤ self.old.sizes.rows)) }
        ensures { rack_of self.new ≡ with_lists (rack_of self.old) (rack_of self.old).tickets (put_in self.old.sizes.rows (rack_of self.old).slots column row slot) }
    {
        let at = column as usize * self.sizes.rows as usize + (row as usize - 1);
        self.slots[at] = slot;
    }

    /// What an action writes: a mark in a slot, or a slot made vacant.
    pub(crate) fn write(&mut self, t: Ticket, action: Action, column: u32, row: u32)
        requires { Writes (rack_of self.old) action column row }
        ensures { rack_of self.new ≡ with_lists (rack_of self.old) (rack_of self.old).tickets (slots_after (rack_of self.old) t column row action) }
    {
        match action {
            Action::Wipe => self.put_slot(column, row, Slot::Vacant),
            Action::Mark => self.put_slot(column, row, Slot::Marked(t.number)),
            Action::Over | Action::Without | Action::Grant | Action::Wall => {}
        }
    }

    /// The first action whose condition holds.
    pub(crate) fn duty(&self, t: Ticket, mask: u16) -> Action
        requires is_soft { soft t.phase ≡ true }
        requires held { t.marks ≤ t.request.length }
        requires mask { mask ≡ mask_seen (rack_of self.now) t }
        ensures { result ≡ action_of (rack_of self.now) t }
    {
        if t.phase.retreats() {
            return Action::Wipe;
        }
        let past = self.is_past(t);
        let complete = t.marks == t.request.length;
        if (past || complete) && t.seen != self.handbacks {
            return Action::Over;
        }
        if past {
            return Action::Without;
        }
        if complete {
            return Action::Grant;
        }
        if mask != 0 {
            Action::Mark
        } else {
            Action::Wall
        }
    }

    /// The row of the ticket's own mark one column to the left of the next, if it has one.
    fn left_row(&self, t: Ticket) -> Option<u32>
        requires { t.first + t.marks ≤ self.now.sizes.columns }
        ensures { result ≡ (asked (rack_of self.now) t).left }
    {
        if t.marks == 0 {
            return None;
        }
        Some(self.column(t.first + t.marks - 1).row_of(t.number))
    }
}

impl Board {
    /// The row that the chooser picks for a mark in the column ahead, which has a vacant one.
    fn pick<C: Chooser>(&self, t: Ticket, mask: u16, chooser: &mut C) -> u32
        requires inside { ahead t < self.now.tables.sizes.columns }
        requires mask { mask ≡ mask_of (cells_in (rack_in self.now) (ahead t)) }
        requires vacant { mask ≢ 0 }
        ensures row { result ≡ row_for C.Chooser.meaning (rack_in self.now) t chooser.old }
        ensures held { chooser.new ≡ C.Chooser.meaning.then chooser.old (asked (rack_in self.now) t) }
        ensures within { (1 ≤ result) × (result ≤ self.now.tables.sizes.rows) }
    {
        let asked = Asked {
            mask,
            column: t.first + t.marks,
            left: self.tables.left_row(t),
        };
        chooser.choose(asked).unwrap()
    }

    /// The row that an action writes: for a mark the chooser's, for a wipe the mark's own, else 0.
    pub(crate) fn row_for<C: Chooser>(
        &self,
        i: usize,
        t: Ticket,
        action: Action,
        mask: u16,
        chooser: &mut C,
    ) -> u32
        requires within { i < vec_len self.now.tables.tickets }
        requires is { t ≡ ticket_at (rack_in self.now) i }
        requires is_soft { soft t.phase ≡ true }
        requires mask { mask ≡ mask_seen (rack_in self.now) t }
        requires action { action ≡ action_of (rack_in self.now) t }
        ensures row { result ≡ row_told (rack_in self.now) t (row_for C.Chooser.meaning (rack_in self.now) t chooser.old) action }
        ensures held { chooser.new ≡ held_after C.Chooser.meaning (rack_in self.now) t chooser.old }
        ensures writes { Writes (rack_in self.now) action (column_of action t) result }
    {
        match action {
            Action::Mark => self.pick(t, mask, chooser),
            Action::Wipe => self.tables.column(t.first + t.marks - 1).row_of(t.number),
            Action::Over | Action::Without | Action::Grant | Action::Wall => 0,
        }
    }
}
