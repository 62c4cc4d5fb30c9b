// Both pieces at two entry types each.

ghost use Rattle.std.specs.Prelude.{not, ◌&&◌, ◌||◌, ◌==◌, nat_le, nat_lt};
ghost use Rattle.std.proofs.Common.{rules};

use crate::foremost::{Ranked, foremost};
use crate::journal::{Full, Journal};

// Soft ones first, then by number.
#[derive(Clone, Copy)]
pub struct Key {
    soft: bool,
    number: u32,
}

impl Ranked for Key {
    ghost before = { λ x y. (x.soft && not y.soft) || ((x.soft || not y.soft) && nat_le x.number y.number) };

    ghost total = { Prim.search rules };

    ghost transitive = { Prim.search rules };

    fn stands_before(&self, other: &Self) -> bool {
        (!self.soft, self.number) <= (!other.soft, other.number)
    }
}

// By count, then by row.
#[derive(Clone, Copy, PartialEq, Eq, PartialOrd, Ord)]
pub struct Tally {
    count: u16,
    row: u8,
}

impl Ranked for Tally {
    ghost before = { λ x y. nat_lt x.count y.count || (x.count == y.count && nat_le x.row y.row) };

    ghost total = { Prim.search rules };

    ghost transitive = { Prim.search rules };

    fn stands_before(&self, other: &Self) -> bool {
        self <= other
    }
}

fn soft(number: u32) -> Key {
    Key { soft: true, number }
}

fn firm(number: u32) -> Key {
    Key {
        soft: false,
        number,
    }
}

fn counted(count: u16, row: u8) -> Tally {
    Tally { count, row }
}

#[test]
fn foremost_key(rt: HostRuntime) {
    assert_eq!(rt; foremost(&[firm(1), soft(9), soft(4), firm(2)]), Some(2));
    assert_eq!(rt; foremost(&[firm(3), firm(3)]), Some(0));
}

#[test]
fn foremost_tally(rt: HostRuntime) {
    assert_eq!(rt;
        foremost(&[counted(2, 0), counted(1, 3), counted(1, 2), counted(1, 2)]),
        Some(2)
    );
    let none: [Tally; 0] = [];
    assert_eq!(rt; foremost(&none), None);
}

#[test]
fn journal_of_numbers(rt: HostRuntime) {
    let mut places = [7u32, 8, 9];
    let mut journal = Journal::new(&mut places);
    assert_eq!(rt; journal.push(1), Ok(()));
    assert_eq!(rt; journal.push(2), Ok(()));
    assert_eq!(rt; journal.room(), 1);
    assert_eq!(rt; journal.entries(), [1u32, 2].as_slice());
    journal.clear();
    assert_eq!(rt; journal.len(), 0);
    assert_eq!(rt; journal.push(3), Ok(()));
    assert_eq!(rt; &places[0..3], [3u32, 2, 9].as_slice());
}

#[test]
fn journal_of_flags(rt: HostRuntime) {
    let mut places = [false];
    let mut journal = Journal::new(&mut places);
    assert!(rt; !journal.is_full());
    assert_eq!(rt; journal.push(true), Ok(()));
    assert!(rt; journal.is_full());
    assert_eq!(rt; journal.push(false), Err(Full));
    assert_eq!(rt; journal.len(), 1);
    assert!(rt; places[0]);
}
