//! Bookings on the board: what was asked for, and how far the search for it has come.
ghost use Rattle.std.specs.Prelude.{◌≡◌, true, false};
ghost use Rattle.rules.specs.Words.{stage_word, stage_of};
ghost use Rattle.rules.specs.Rack.{soft, hard};
ghost use Rattle.rules.specs.Step.{is_forward, retreats};
ghost use Rattle.rules.specs.Order.{ticket_before};
ghost use Rattle.std.proofs.Common.{rules};

use crate::span::Span;
use lists::foremost::Ranked;

/// What a booking asks for: `length` adjacent columns, none before `start`.
#[derive(Clone, Copy, PartialEq, Eq, Debug)]
pub struct Request {
    pub start: u32,
    pub length: u32,
}

/// Where a booking stands, as callers see it.
#[derive(Clone, Copy, PartialEq, Eq, Debug)]
pub enum Stage {
    /// Undecided: its ticket goes forward or backs out.
    Seeking,
    /// Decided: there is no window for it.
    Without,
    /// Decided: it has its window.
    Granted,
    /// Granted and collected.
    Out,
    /// Withdrawn or handed back, with marks left to wipe.
    Closing,
    /// No ticket has the place.
    Idle,
}

impl Stage {
    /// The word that answers use.
    pub fn word(self) -> &'static str
        ensures { result.now ≡ stage_word self }
    {
        match self {
            Stage::Seeking => "seeking",
            Stage::Without => "without",
            Stage::Granted => "granted",
            Stage::Out => "out",
            Stage::Closing => "closing",
            Stage::Idle => "idle",
        }
    }
}

/// What a ticket is doing. The first two are the two ways of seeking.
#[derive(Clone, Copy, PartialEq, Eq, Debug)]
pub enum Phase {
    /// Seeking: it marks columns from its first one on.
    Forward,
    /// Seeking: it wipes its marks, and then goes forward from this column.
    Backing(u32),
    Without,
    Granted,
    Out,
    Closing,
}

impl Phase {
    pub fn stage(self) -> Stage
        ensures { result ≡ stage_of self }
    {
        match self {
            Phase::Forward | Phase::Backing(_) => Stage::Seeking,
            Phase::Without => Stage::Without,
            Phase::Granted => Stage::Granted,
            Phase::Out => Stage::Out,
            Phase::Closing => Stage::Closing,
        }
    }

    /// A step can work on it: it is seeking or closing.
    pub fn is_soft(self) -> bool
        ensures { result ≡ soft self }
    {
        matches!(self, Phase::Forward | Phase::Backing(_) | Phase::Closing)
    }

    /// Its slots are booked: it is granted or out.
    pub fn is_hard(self) -> bool
        ensures { result ≡ hard self }
    {
        matches!(self, Phase::Granted | Phase::Out)
    }

    pub fn is_forward(self) -> bool
        ensures { result ≡ is_forward self }
    {
        matches!(self, Phase::Forward)
    }

    /// It wipes its marks: it backs out or is closing.
    pub fn retreats(self) -> bool
        ensures { result ≡ retreats self }
    {
        matches!(self, Phase::Backing(_) | Phase::Closing)
    }
}

/// A booking on the board. It has a mark in each of the `marks` columns from `first` on; `seen` is
/// the hand-back count when its search last set out from the start.
#[derive(Clone, Copy, PartialEq, Eq, Debug)]
pub struct Ticket {
    pub number: u32,
    pub request: Request,
    pub phase: Phase,
    pub first: u32,
    pub marks: u32,
    pub seen: u32,
}

impl Ticket {
    /// The window of a ticket that is granted or out.
    pub fn window(self) -> Span
        ensures { result ≡ record { first = self.first; length = self.request.length } }
    {
        Span {
            first: self.first,
            length: self.request.length,
        }
    }
}

/// Soft tickets first, then by number: the foremost one is the oldest soft ticket, if any is soft.
impl Ranked for Ticket {
    ghost before = { ticket_before };

    ghost total = { Prim.search rules };

    ghost transitive = { Prim.search rules };

    fn stands_before(&self, other: &Self) -> bool {
        // two tuples compared here make a step on a crowded rack slower
        if self.phase.is_soft() == other.phase.is_soft() {
            self.number <= other.number
        } else {
            self.phase.is_soft()
        }
    }
}
