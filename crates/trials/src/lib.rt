//! Test runs of the finished crates, the one case that no run can reach, and what callers know of what they lend.
#![tactic(auto)]

ghost use Rattle.std.specs.Prelude.{◌≡◌, ◌≤◌, length, IfSome};
ghost use Rattle.std.specs.Option.{option_map};
ghost use Rattle.lists.specs.Contents.{lent, pushed};
ghost use Rattle.lists.specs.Reading.{contents_of};
ghost use Rattle.text.specs.Frames.{longest};
ghost use Rattle.trials.specs.Numbers.{TheLastNumberIsGiven, NoneComesAfterIt, NumbersAreTriedSecond, AnOpeningStartsOver};

use lists::journal::Journal;
use text::frame::Framer;

#[cfg(test)]
mod tests;

/// The numbers of bookings end at 2,000,000,000: it is given out, and the booking after it is refused.
pub fn last_number()
    ensures given { TheLastNumberIsGiven }
    ensures refused { NoneComesAfterIt }
    ensures order { NumbersAreTriedSecond }
    ensures anew { AnOpeningStartsOver }
{}

/// Whoever lends places to a journal knows what they hold once the journal is gone.
pub fn note_in(places: &mut [u32], entry: u32)
    ensures { places.new ≡ (pushed (lent places.old) entry).contents.slots }
{
    let mut journal = Journal::new(places);
    let _ = journal.push(entry);
}

/// How many places were lent to a journal: its entries and its room make them up.
pub fn places_of(journal: &Journal<u32>) -> usize
    ensures { result ≡ length (contents_of journal.now).slots }
{
    journal.len() + journal.room()
}

/// How much a framer has kept of a line: it hands out none that is too long.
pub fn kept_of(framer: &Framer) -> Option<usize>
    ensures len { result ≡ option_map length framer.now }
    ensures fits { IfSome result (λ n. n ≤ longest) }
{
    framer.line().map(|line| line.len())
}
