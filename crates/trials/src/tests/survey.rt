//! All that can be seen of a board, held against the slow ledger.
use crate::tests::ledger::{Kind, columns_of};
use crate::tests::runs::Trial;
use rules::report::Action;
use rules::span::Span;
use rules::ticket::Stage;
use std::alloc::AllocError;
use std::mem;
use std::process::Abort;
use std::test::Fail;

impl Trial {
    // The tickets are those of the bookings that have one, in rising order.
    fn tickets_agree(&self, rt: &impl Abort) {
        let tickets = self.board.tickets();
        assert!(rt; tickets.is_sorted_by(|one, next| one.number < next.number));
        assert_eq!(rt; tickets.len(), self.ledger.in_use());
        assert!(rt; tickets.len() <= self.draws.rack.sizes.places as usize);
        for ticket in tickets {
            let booking = self
                .ledger
                .booking(ticket.number)
                .expect(rt, "no such booking");
            assert!(rt; ticket.number > 0);
            assert_eq!(rt; ticket.phase.stage(), booking.stage());
            assert_eq!(rt; ticket.request, booking.request);
            assert_eq!(rt; ticket.marks, booking.marks);
        }
    }

    // The five kinds add up to the bookings taken.
    fn accounts_balance(&self, rt: &impl Abort) {
        let tickets = self.board.tickets();
        let undecided = tickets
            .iter()
            .filter(|ticket| ticket.phase.stage() == Stage::Seeking)
            .count();
        let standing = tickets
            .iter()
            .filter(|ticket| ticket.phase.is_hard())
            .count();
        let granted = standing.wrapping_add(self.returned);
        let decided = self
            .ledger
            .reports_of(Action::Without)
            .wrapping_add(granted);
        assert_eq!(rt; undecided, self.ledger.undecided());
        assert_eq!(rt; standing, self.ledger.standing());
        assert_eq!(rt; granted, self.ledger.reports_of(Action::Grant));
        assert_eq!(rt;
            decided.wrapping_add(undecided).wrapping_add(self.withdrawn),
            self.ledger.bookings.len()
        );
    }

    // Each column shows as many marks as the reports leave in it.
    fn marks_agree(&self, rt: &impl Abort) {
        for column in 0..self.draws.rack.sizes.columns {
            let shown = self.board.show(column).map(|marks| marks as usize);
            assert_eq!(rt; shown, Ok(self.ledger.marks_in(column)));
        }
    }

    // Every number ever given is in its stage, and those around them are idle.
    fn stages_agree(&self, rt: &impl Abort) {
        let before = self.draws.rack.first.wrapping_sub(1);
        assert_eq!(rt; self.board.stage(before), Stage::Idle);
        assert_eq!(rt; self.board.stage(self.next()), Stage::Idle);
        for booking in self.ledger.bookings.iter() {
            assert_eq!(rt; self.board.stage(booking.number), booking.stage());
        }
    }

    // Each row told of a window is that of the latest mark there, and no slot is told twice.
    fn window_told(&self, rt: &impl Abort, number: u32, window: Span, told: &mut [bool]) {
        for (column, offset) in columns_of(window).zip(0..) {
            let row = self.board.row(number, offset).expect(rt, "no such row");
            assert_eq!(rt; self.ledger.row_of(Some(number), column), Some(row));
            let place = self.draws.rack.place(column, row);
            let slot = told.get_mut(place).expect(rt, "no such slot");
            assert!(rt; !mem::replace(slot, true));
        }
    }

    fn windows_told(&self, rt: &impl Abort) -> Result<(), AllocError> {
        let mut told = vec![in self.heap; false; self.draws.rack.slots()]?;
        for booking in self.ledger.bookings.iter() {
            if let (Stage::Out, Kind::Standing(window)) = (booking.stage(), booking.kind) {
                self.window_told(rt, booking.number, window, &mut told);
            }
        }
        Ok(())
    }

    /// Looks at everything.
    pub(super) fn survey(&self, rt: &impl Abort) -> Result<(), Fail> {
        self.tickets_agree(rt);
        self.accounts_balance(rt);
        self.marks_agree(rt);
        self.stages_agree(rt);
        self.windows_told(rt)?;
        Ok(())
    }
}
