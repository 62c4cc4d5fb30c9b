//! Reports held against the slow ledger.
use crate::tests::ledger::{Booking, Kind, Ledger, columns_of};
use board::chooser::Chooser;
use board::evening::Evening;
use board::lowest::Lowest;
use board::staying::Staying;
use rules::report::{Action, Report};
use rules::span::Span;
use std::process::Abort;
use std::test::Fail;

/// A chooser whose picks the ledger foresees.
pub(super) trait Foreseen: Chooser {
    /// The row that it must have picked for a mark, by the ledger without that mark.
    fn foreseen(&self, ledger: &Ledger, mark: Report) -> Option<u32>;

    /// Takes a pick in, where picks count.
    fn count(&self, _ledger: &mut Ledger, _row: u32) {}
}

impl Foreseen for Lowest {
    fn foreseen(&self, ledger: &Ledger, mark: Report) -> Option<u32> {
        ledger.row_of(None, mark.column)
    }
}

impl Foreseen for Staying {
    fn foreseen(&self, ledger: &Ledger, mark: Report) -> Option<u32> {
        mark.column
            .checked_sub(1)
            .and_then(|left| ledger.row_of(Some(mark.number), left))
            .filter(|row| ledger.owner(mark.column, *row).is_none())
            .or_else(|| ledger.row_of(None, mark.column))
    }
}

impl Foreseen for Evening {
    fn foreseen(&self, ledger: &Ledger, mark: Report) -> Option<u32> {
        (1..=ledger.rack.sizes.rows)
            .filter(|row| ledger.owner(mark.column, *row).is_none())
            .min_by_key(|row| ledger.tallies.get(*row as usize).copied())
    }

    fn count(&self, ledger: &mut Ledger, row: u32) {
        if let Some(tally) = ledger.tallies.get_mut(row as usize) {
            *tally = tally.saturating_add(1);
        }
    }
}

impl Ledger {
    // A vacant slot of the board gets a mark, in the chooser's row.
    fn marked(
        &mut self,
        rt: &impl Abort,
        chooser: &impl Foreseen,
        report: Report,
        booking: Booking,
    ) {
        assert!(rt; report.column < self.rack.sizes.columns);
        assert_eq!(rt; chooser.foreseen(self, report), Some(report.row));
        assert_eq!(rt; self.owner(report.column, report.row), None);
        assert_eq!(rt; self.marks_of(report.number, report.column), 0);
        self.own(report.column, report.row, Some(report.number));
        chooser.count(self, report.row);
        self.put(Booking {
            marks: booking.marks.saturating_add(1),
            ..booking
        });
    }

    // The number's own mark goes; it has none further to the right.
    fn wiped(&mut self, rt: &impl Abort, report: Report, booking: Booking) {
        let number = Some(report.number);
        assert!(rt; report.row > 0);
        assert_eq!(rt; self.owner(report.column, report.row), number);
        assert_eq!(rt; self.row_of(number, report.column.wrapping_add(1)), None);
        assert!(rt; !matches!(booking.kind, Kind::Standing(_) | Kind::Without));
        self.own(report.column, report.row, None);
        self.put(Booking {
            marks: booking.marks.wrapping_sub(1),
            ..booking
        });
    }

    // One mark in each column of the window.
    fn covers(&self, rt: &impl Abort, number: u32, window: Span) {
        for column in columns_of(window) {
            assert_eq!(rt; self.marks_of(number, column), 1);
        }
    }

    // A grant is the ledger's next answer.
    fn granted(&mut self, rt: &impl Abort, report: Report, booking: Booking) -> Result<(), Fail> {
        let window = Span {
            first: report.column,
            length: booking.request.length,
        };
        assert_eq!(rt; report.row, 0);
        assert_eq!(rt; self.least(booking.request), Some(window.first));
        assert_eq!(rt; booking.marks, window.length);
        self.covers(rt, report.number, window);
        self.windows.push((report.number, window))?;
        self.put(Booking {
            kind: Kind::Standing(window),
            ..booking
        });
        Ok(())
    }

    // A without comes exactly where the ledger gives none.
    fn refused(&mut self, rt: &impl Abort, report: Report, booking: Booking) {
        assert_eq!(rt; (report.column, report.row), (booking.request.start, 0));
        assert_eq!(rt; self.least(booking.request), None);
        assert_eq!(rt; booking.marks, 0);
        self.put(Booking {
            kind: Kind::Without,
            ..booking
        });
    }

    // Starting over and walls leave the marks.
    fn turned(&self, rt: &impl Abort, report: Report, booking: Booking) {
        assert_eq!(rt; report.row, 0);
        match report.action {
            Action::Over => assert_eq!(rt; report.column, booking.request.start),
            _ => assert!(rt; self.is_full(report.column)),
        }
    }

    /// Takes a report in, and holds it against what was told before. All but a wipe are of an undecided
    /// booking.
    pub(super) fn read(
        &mut self,
        rt: &impl Abort,
        chooser: &impl Foreseen,
        report: Report,
    ) -> Result<(), Fail> {
        let booking = self.booking(report.number).expect(rt, "no such booking");
        if report.action != Action::Wipe {
            assert_eq!(rt; booking.kind, Kind::Undecided);
        }
        match report.action {
            Action::Mark => self.marked(rt, chooser, report, booking),
            Action::Wipe => self.wiped(rt, report, booking),
            Action::Grant => self.granted(rt, report, booking)?,
            Action::Without => self.refused(rt, report, booking),
            Action::Over | Action::Wall => self.turned(rt, report, booking),
        }
        self.reports.push(report)?;
        Ok(())
    }
}
