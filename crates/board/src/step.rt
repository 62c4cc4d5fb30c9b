//! One step of the board.
ghost use Rattle.std.specs.Prelude.{◌≡◌};
ghost use Rattle.rules.specs.Calls.{step as step_call};
ghost use Rattle.rules.specs.History.{Event};
ghost use Rattle.rules.specs.Laws.{told, Carries};
ghost use Rattle.board.specs.Face.{rack_in};

use crate::act::{becomes, column_told};
use crate::board::Board;
use crate::chooser::Chooser;
use rules::refusal::Refusal;
use rules::report::Report;

impl Board {
    /// Makes one step that names a number: one action of one ticket.
    pub fn step<C: Chooser>(&mut self, number: u32, chooser: &mut C) -> Result<Report, Refusal>
        ensures answer { result ≡ (step_call C.Chooser.meaning (rack_in self.old) number chooser.old).answer }
        ensures rack { rack_in self.new ≡ (step_call C.Chooser.meaning (rack_in self.old) number chooser.old).ran.rack }
        ensures chooser { chooser.new ≡ (step_call C.Chooser.meaning (rack_in self.old) number chooser.old).ran.held }
        ensures history { Carries (told Event.stepped result) (rack_in self.old) (rack_in self.new) }
    {
        let spot = self.due(number)?;
        let t = self.tables.ticket(spot.place);
        let action = self.tables.duty(t, spot.mask);
        let column = column_told(t, action);
        let row = self.row_for(spot.place, t, action, spot.mask, chooser);
        self.tables.write(t, action, column, row);
        let by = becomes(t, action, self.tables.handbacks);
        self.tables.replace(spot.place, t, by);
        Ok(Report {
            number: t.number,
            action,
            column,
            row,
        })
    }
}
