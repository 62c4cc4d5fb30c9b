//! Numbers that look drawn by chance, the same ones at each run.

#[derive(Drop)]
pub(super) struct Chance {
    state: u32,
}

impl Chance {
    pub(super) fn new(seed: u32) -> Chance {
        Chance { state: seed | 1 }
    }

    fn draw(&mut self) -> u32 {
        let mut x = self.state;
        x ^= x.wrapping_shl(13);
        x ^= x.wrapping_shr(17);
        x ^= x.wrapping_shl(5);
        self.state = x;
        x
    }

    /// A number from 0 to `most`, `most` not among them; 0 where that is 0.
    pub(super) fn below(&mut self, most: u32) -> u32 {
        self.draw().wrapping_shr(3).checked_rem(most).unwrap_or(0)
    }
}
