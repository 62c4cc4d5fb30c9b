// A journal: entries in places that are lent to it, from the first place on.

mod methods;

ghost use Rattle.std.specs.Prelude.{◌≤◌, length};

#[derive(Drop)]
pub struct Journal<'a, T> {
    slots: &'a mut [T],
    len: usize,
    ghost fits: { len ≤ length slots.now },
}

// The answer to an entry for which there is no room.
#[derive(Clone, Copy, PartialEq, Eq, Debug)]
pub struct Full;
