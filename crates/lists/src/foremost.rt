// Which entry of a list stands foremost.

ghost use Rattle.std.specs.Prelude.{◌≡◌, Bool, true, false};
ghost use Rattle.lists.specs.Order.{foremost_of, Foremost};

// Entries with an order, in which two entries may stand level.
pub trait Ranked {
    // the first entry stands before the second, or level with it
    ghost before: { Self → Self → Bool };

    fn stands_before(&self, other: &Self) -> bool
        ensures { result ≡ before self.now other.now };

    ghost total: { (x y : Self) → before x y ≡ false → before y x ≡ true };

    ghost transitive: { (x y z : Self) → before x y ≡ true → before y z ≡ true → before x z ≡ true };
}

// The first place whose entry stands before or level with every entry; of an empty list, none.
pub fn foremost<T: Ranked>(list: &[T]) -> Option<usize>
    ensures is { result ≡ foremost_of T.Ranked.before list.now }
    ensures leads { Foremost T.Ranked.before list.now result }
{
    if list.is_empty() {
        return None;
    }
    let mut best = 0;
    for (i, entry) in list[1..].iter().enumerate() {
        if !list[best].stands_before(entry) {
            best = i + 1;
        }
    }
    Some(best)
}
