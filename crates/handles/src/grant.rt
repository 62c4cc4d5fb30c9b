//! What a program holds of a collected window.
ghost use Rattle.std.specs.Prelude.{◌≡◌};

/// A window that is out. It is not `Copy`, `Clone` or `Drop`.
pub struct Grant {
    pub(crate) number: u32,
}

impl Grant {
    /// The number of the booking.
    pub fn number(&self) -> u32
        ensures { result ≡ self.now.number }
    {
        self.number
    }

    /// Ends the grant; its number is left.
    pub(crate) fn end(self) -> u32
        ensures { result ≡ self.number }
    {
        let Grant { number } = self;
        number
    }
}
