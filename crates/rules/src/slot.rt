//! One row in one column of the rack.
ghost use Rattle.std.specs.Prelude.{◌≡◌};
ghost use Rattle.rules.specs.Rack.{is_vacant, holds};

/// A slot is vacant, or holds the mark of the ticket with this number.
#[derive(Clone, Copy, PartialEq, Eq, Debug)]
pub enum Slot {
    Vacant,
    Marked(u32),
}

impl Slot {
    pub fn is_vacant(&self) -> bool
        ensures { result ≡ is_vacant self.now }
    {
        matches!(self, Slot::Vacant)
    }

    /// It holds the mark of the ticket with this number.
    pub fn holds(&self, number: u32) -> bool
        ensures { result ≡ holds number self.now }
    {
        matches!(self, Slot::Marked(n) if *n == number)
    }
}
