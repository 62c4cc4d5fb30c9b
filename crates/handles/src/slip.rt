//! What a program holds of a booking.
ghost use Rattle.std.specs.Prelude.{◌≡◌};
ghost use Rattle.handles.specs.Holding.{waits as still_waits, refused_in};

use rules::refusal::Refusal;
use rules::ticket::Stage;

/// A booking that is not collected yet. It is not `Copy`, `Clone` or `Drop`.
pub struct Slip {
    pub(crate) number: u32,
}

/// Why a call that takes a slip said no, and whether the slip came back.
pub enum Refused {
    /// The slip comes back: its booking still waits for its holder.
    Kept(Slip, Refusal),
    /// The slip has ended: its booking is collected, withdrawn or gone.
    Ended(Refusal),
}

/// A booking in this stage still waits for the holder of its slip.
fn waits(stage: Stage) -> bool
    ensures { result ≡ still_waits stage }
{
    matches!(stage, Stage::Seeking | Stage::Without | Stage::Granted)
}

impl Slip {
    /// The number of the booking.
    pub fn number(&self) -> u32
        ensures { result ≡ self.now.number }
    {
        self.number
    }

    /// Ends the slip; its number is left.
    pub(crate) fn end(self) -> u32
        ensures { result ≡ self.number }
    {
        let Slip { number } = self;
        number
    }

    /// A refused slip comes back if its booking was in a stage that waits for it, and else ends.
    pub(crate) fn refused(self, stage: Stage, refusal: Refusal) -> Refused
        ensures { result ≡ refused_in stage self.number refusal }
    {
        if waits(stage) {
            return Refused::Kept(self, refusal);
        }
        self.end();
        Refused::Ended(refusal)
    }
}
