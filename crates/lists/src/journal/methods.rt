// What a journal does. The slice lent stays the same one, by its name, so that the lender knows what it holds afterwards.

ghost use Rattle.std.specs.Prelude.{◌≡◌, length};
ghost use Rattle.lists.specs.Contents.{lent, entries_of, room_of, full_of, pushed, cleared};
ghost use Rattle.lists.specs.Reading.{contents_of};

use super::{Full, Journal};

impl<'a, T: Drop> Journal<'a, T> {
    pub fn new(slots: &'a mut [T]) -> Journal<'a, T>
        ensures contents { contents_of result ≡ lent slots.old }
        ensures place { result.slots.ghost_name ≡ slots.entry.ghost_name }
    {
        Journal { slots, len: 0 }
    }

    // How many entries there are.
    pub fn len(&self) -> usize
        ensures { result ≡ (contents_of self.now).len }
    {
        self.entries().len()
    }

    // How many entries there is still room for.
    pub fn room(&self) -> usize
        ensures { result ≡ room_of (contents_of self.now) }
    {
        self.slots.len() - self.len
    }

    pub fn is_full(&self) -> bool
        ensures { result ≡ full_of (contents_of self.now) }
    {
        self.room() == 0
    }

    pub fn entries(&self) -> &[T]
        ensures entries { result.now ≡ entries_of (contents_of self.now) }
        ensures count { length result.now ≡ (contents_of self.now).len }
    {
        &self.slots[0..self.len]
    }

    // Enters `x` behind the entries, or refuses it where there is no room.
    pub fn push(&mut self, x: T) -> Result<(), Full>
        ensures answer { result ≡ (pushed (contents_of self.old) x).answer }
        ensures contents { contents_of self.new ≡ (pushed (contents_of self.old) x).contents }
        ensures place { self.new.slots.ghost_name ≡ self.old.slots.ghost_name }
    {
        if self.is_full() {
            return Err(Full);
        }
        self.slots[self.len] = x;
        self.len += 1;
        Ok(())
    }

    // Takes all entries out. What they were still stands in the places lent.
    pub fn clear(&mut self)
        ensures contents { contents_of self.new ≡ cleared (contents_of self.old) }
        ensures place { self.new.slots.ghost_name ≡ self.old.slots.ghost_name }
    {
        self.len = 0;
    }
}
