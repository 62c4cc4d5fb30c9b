//! Many steps that name one number.
ghost use Rattle.std.specs.Prelude.{◌≡◌, min, length};
ghost use Rattle.lists.specs.Contents.{room_of, entered};
ghost use Rattle.lists.specs.Reading.{contents_of};
ghost use Rattle.rules.specs.Calls.{steps, drive as drive_call};
ghost use Rattle.rules.specs.Laws.{reported, Carries};
ghost use Rattle.rules.specs.Play.{DriveCounts, DriveEnds};
ghost use Rattle.board.specs.Face.{rack_in};

use crate::board::Board;
use crate::chooser::Chooser;
use lists::journal::Journal;
use rules::refusal::Refusal;
use rules::report::Report;
use rules::ticket::Stage;

impl Board {
    /// Steps, each report entered, until the ticket is not soft, the budget is made or the journal is full.
    fn run<C: Chooser>(
        &mut self,
        number: u32,
        budget: u32,
        journal: &mut Journal<Report>,
        chooser: &mut C,
    ) -> u32
        ensures count { result ≡ length (steps C.Chooser.meaning (min budget (room_of (contents_of journal.old))) (rack_in self.old) number chooser.old).reports }
        ensures rack { rack_in self.new ≡ (steps C.Chooser.meaning (min budget (room_of (contents_of journal.old))) (rack_in self.old) number chooser.old).rack }
        ensures chooser { chooser.new ≡ (steps C.Chooser.meaning (min budget (room_of (contents_of journal.old))) (rack_in self.old) number chooser.old).held }
        ensures journal { contents_of journal.new ≡ entered (contents_of journal.old) (steps C.Chooser.meaning (min budget (room_of (contents_of journal.old))) (rack_in self.old) number chooser.old).reports }
        ensures place { journal.new.slots.ghost_name ≡ journal.old.slots.ghost_name }
    {
        for made in 0..budget {
            if journal.is_full() {
                return made;
            }
            match self.step(number, chooser) {
                Ok(report) => {
                    let _ = journal.push(report);
                }
                Err(_refusal) => return made,
            }
        }
        budget
    }

    /// Drives a booking on: answers how many steps it made, each with its report in the journal, and
    /// the stage that the number is in then.
    pub fn drive<C: Chooser>(
        &mut self,
        number: u32,
        budget: u32,
        journal: &mut Journal<Report>,
        chooser: &mut C,
    ) -> Result<(u32, Stage), Refusal>
        ensures answer { result ≡ (drive_call C.Chooser.meaning (rack_in self.old) number budget (room_of (contents_of journal.old)) chooser.old).answer }
        ensures rack { rack_in self.new ≡ (drive_call C.Chooser.meaning (rack_in self.old) number budget (room_of (contents_of journal.old)) chooser.old).ran.rack }
        ensures chooser { chooser.new ≡ (drive_call C.Chooser.meaning (rack_in self.old) number budget (room_of (contents_of journal.old)) chooser.old).ran.held }
        ensures journal { contents_of journal.new ≡ entered (contents_of journal.old) (drive_call C.Chooser.meaning (rack_in self.old) number budget (room_of (contents_of journal.old)) chooser.old).ran.reports }
        ensures place { journal.new.slots.ghost_name ≡ journal.old.slots.ghost_name }
        ensures counts { DriveCounts C.Chooser.meaning }
        ensures ends { DriveEnds C.Chooser.meaning }
        ensures history { Carries (reported (drive_call C.Chooser.meaning (rack_in self.old) number budget (room_of (contents_of journal.old)) chooser.old).ran.reports) (rack_in self.old) (rack_in self.new) }
    {
        self.tables.soft_place(number)?;
        if journal.is_full() {
            return Err(Refusal::Full);
        }
        let made = self.run(number, budget, journal, chooser);
        Ok((made, self.stage(number)))
    }
}
