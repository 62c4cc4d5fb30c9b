//! A slow ledger: what answers and reports tell, and nothing else, in plain lists.
use board::board::Board;
use rules::rack::Sizes;
use rules::refusal::Refusal;
use rules::report::{Action, Report};
use rules::span::Span;
use rules::ticket::{Request, Stage};
use std::alloc::{AllocError, Global};
use std::ops::Range;

/// The sizes of a rack, and its first number.
#[derive(Clone, Copy, Debug)]
pub(super) struct Rack {
    pub sizes: Sizes,
    pub first: u32,
}

impl Rack {
    pub(super) fn open(&self, board: &mut Board) -> Result<(), Refusal> {
        board.open(self.sizes, self.first)
    }

    /// How many slots there are.
    pub(super) fn slots(&self) -> usize {
        self.sizes.rows.wrapping_mul(self.sizes.columns) as usize
    }

    /// The place of a slot in a list of all slots.
    pub(super) fn place(&self, column: u32, row: u32) -> usize {
        let before = column.wrapping_mul(self.sizes.rows);
        before.wrapping_add(row).wrapping_sub(1) as usize
    }
}

/// The columns of a window.
pub(super) fn columns_of(window: Span) -> Range<u32> {
    window.first..window.first.wrapping_add(window.length)
}

#[derive(Clone, Copy, PartialEq, Eq, Debug)]
pub(super) enum Kind {
    Undecided,
    Withdrawn,
    Without,
    Standing(Span),
    Returned,
}

/// A booking taken: what was asked for, its kind, whether its answer was collected, how many marks it
/// has, and how many steps had been made when it was taken.
#[derive(Clone, Copy)]
pub(super) struct Booking {
    pub number: u32,
    pub request: Request,
    pub kind: Kind,
    pub collected: bool,
    pub marks: u32,
    pub taken: usize,
}

impl Booking {
    /// The stage that its ticket must be in.
    pub(super) fn stage(&self) -> Stage {
        match self.kind {
            Kind::Undecided => Stage::Seeking,
            Kind::Without if self.collected => Stage::Idle,
            Kind::Without => Stage::Without,
            Kind::Standing(_) if self.collected => Stage::Out,
            Kind::Standing(_) => Stage::Granted,
            Kind::Withdrawn | Kind::Returned if self.marks == 0 => Stage::Idle,
            Kind::Withdrawn | Kind::Returned => Stage::Closing,
        }
    }
}

#[derive(Drop)]
pub(super) struct Ledger {
    pub rack: Rack,
    pub bookings: Vec<Booking>,
    // the windows that stand, each with its number
    pub windows: Vec<(u32, Span)>,
    // whose mark each slot holds
    pub owners: Vec<Option<u32>>,
    // how often each row was picked evenly
    pub tallies: [u32; 17],
    pub reports: Vec<Report>,
}

impl Ledger {
    pub(super) fn new(heap: Global, rack: Rack) -> Result<Ledger, AllocError> {
        Ok(Ledger {
            rack,
            bookings: Vec::new(heap),
            windows: Vec::new(heap),
            owners: vec![in heap; None; rack.slots()]?,
            tallies: [0; 17],
            reports: Vec::new(heap),
        })
    }

    /// How many standing windows cover the column.
    pub(super) fn load(&self, column: u32) -> usize {
        self.windows
            .iter()
            .filter(|(_, window)| columns_of(*window).contains(&column))
            .count()
    }

    /// The column is full.
    pub(super) fn is_full(&self, column: u32) -> bool {
        self.load(column) >= self.rack.sizes.rows as usize
    }

    // The window lies on the rack, and none of its columns is full.
    fn fits(&self, window: Span) -> bool {
        let mut columns = columns_of(window);
        columns.end <= self.rack.sizes.columns && columns.all(|column| !self.is_full(column))
    }

    /// The ledger's answer to a booking: the least first column with room for it, if there is one.
    pub(super) fn least(&self, asked: Request) -> Option<u32> {
        let length = asked.length;
        (asked.start..self.rack.sizes.columns).find(|first| {
            self.fits(Span {
                first: *first,
                length,
            })
        })
    }

    /// The number whose mark a slot holds by the reports.
    pub(super) fn owner(&self, column: u32, row: u32) -> Option<u32> {
        let place = self.rack.place(column, row);
        self.owners.get(place).copied().flatten()
    }

    pub(super) fn own(&mut self, column: u32, row: u32, owner: Option<u32>) {
        let place = self.rack.place(column, row);
        if let Some(slot) = self.owners.get_mut(place) {
            *slot = owner;
        }
    }

    /// How many slots of the column hold a mark by the reports.
    pub(super) fn marks_in(&self, column: u32) -> usize {
        (1..=self.rack.sizes.rows)
            .filter(|row| self.owner(column, *row).is_some())
            .count()
    }

    /// How many slots of the column hold the number's mark.
    pub(super) fn marks_of(&self, number: u32, column: u32) -> usize {
        (1..=self.rack.sizes.rows)
            .filter(|row| self.owner(column, *row) == Some(number))
            .count()
    }

    /// The lowest row of the column that is this owner's; nobody's is the lowest one with no mark.
    pub(super) fn row_of(&self, owner: Option<u32>, column: u32) -> Option<u32> {
        (1..=self.rack.sizes.rows).find(|row| self.owner(column, *row) == owner)
    }

    /// How many bookings were taken.
    pub(super) fn taken(&self) -> u32 {
        u32::try_from(self.bookings.len()).unwrap_or(u32::MAX)
    }

    fn index(&self, number: u32) -> usize {
        number.wrapping_sub(self.rack.first) as usize
    }

    pub(super) fn booking(&self, number: u32) -> Option<Booking> {
        self.bookings.get(self.index(number)).copied()
    }

    pub(super) fn booking_mut(&mut self, number: u32) -> Option<&mut Booking> {
        let index = self.index(number);
        self.bookings.get_mut(index)
    }

    pub(super) fn put(&mut self, booking: Booking) {
        if let Some(place) = self.booking_mut(booking.number) {
            *place = booking;
        }
    }

    /// A booking is taken.
    pub(super) fn take(&mut self, number: u32, request: Request) -> Result<(), AllocError> {
        let taken = self.reports.len();
        self.bookings.push(Booking {
            number,
            request,
            kind: Kind::Undecided,
            collected: false,
            marks: 0,
            taken,
        })?;
        Ok(())
    }

    /// A back entry: the window leaves the list.
    pub(super) fn leave(&mut self, number: u32) {
        self.windows.retain(|(owner, _)| *owner != number);
    }

    /// The stage that a number must be in.
    pub(super) fn stage(&self, number: u32) -> Stage {
        self.booking(number)
            .map_or(Stage::Idle, |booking| booking.stage())
    }

    /// How many places must be in use.
    pub(super) fn in_use(&self) -> usize {
        self.bookings
            .iter()
            .filter(|booking| booking.stage() != Stage::Idle)
            .count()
    }

    /// How many bookings are undecided.
    pub(super) fn undecided(&self) -> usize {
        self.bookings
            .iter()
            .filter(|booking| booking.kind == Kind::Undecided)
            .count()
    }

    /// How many bookings have a window that stands.
    pub(super) fn standing(&self) -> usize {
        self.bookings
            .iter()
            .filter(|booking| matches!(booking.kind, Kind::Standing(_)))
            .count()
    }

    /// How many reports there were of the action.
    pub(super) fn reports_of(&self, action: Action) -> usize {
        self.reports
            .iter()
            .filter(|report| report.action == action)
            .count()
    }

    /// The most steps that an undecided booking has waited for.
    pub(super) fn longest_wait(&self) -> usize {
        let steps = self.reports.len();
        self.bookings
            .iter()
            .filter(|booking| booking.kind == Kind::Undecided)
            .map(|booking| steps.wrapping_sub(booking.taken))
            .max()
            .unwrap_or(0)
    }
}
