//! The choosers alone: what they are told and what they pick.
use board::chooser::Chooser;
use board::evening::Evening;
use board::lowest::Lowest;
use board::staying::Staying;
use rules::asked::Asked;
use std::process::Abort;

// The row that a chooser picks of a column, told the vacant rows and the row to the left.
fn pick<C: Chooser>(chooser: &mut C, mask: u16, column: u32, left: Option<u32>) -> Option<u32> {
    chooser.choose(Asked { mask, column, left })
}

// A chooser is asked twice, at both ends of the board: neither its past nor the column counts.
fn picks<C: Chooser>(
    rt: &impl Abort,
    chooser: &mut C,
    mask: u16,
    left: Option<u32>,
    row: Option<u32>,
) {
    for column in [0, 255] {
        assert_eq!(rt; pick(chooser, mask, column, left), row);
    }
}

// Vacant rows, the row to the left, and the row that lowest and staying pick.
const QUESTIONS: [(u16, Option<u32>, Option<u32>, Option<u32>); 18] = [
    (0, None, None, None),
    (0, Some(1), None, None),
    (0, Some(16), None, None),
    (0xffff, None, Some(1), Some(1)),
    (0xffff, Some(1), Some(1), Some(1)),
    (0xffff, Some(9), Some(1), Some(9)),
    (0xffff, Some(16), Some(1), Some(16)),
    (0xffff, Some(0), Some(1), Some(1)),
    (0xffff, Some(17), Some(1), Some(1)),
    (0xffff, Some(4294967295), Some(1), Some(1)),
    (0x0001, Some(2), Some(1), Some(1)),
    (0x8000, None, Some(16), Some(16)),
    (0x8000, Some(15), Some(16), Some(16)),
    (0x8000, Some(16), Some(16), Some(16)),
    (0x8001, Some(16), Some(1), Some(16)),
    (0x0006, Some(3), Some(2), Some(3)),
    (0x0006, Some(1), Some(2), Some(2)),
    (0x0006, None, Some(2), Some(2)),
];

fn at_the_edges(rt: &impl Abort) {
    for (mask, left, lowest, staying) in QUESTIONS {
        picks(rt, &mut Lowest, mask, left, lowest);
        picks(rt, &mut Staying, mask, left, staying);
    }
}

// With one row vacant, that row is picked, whatever stands to the left.
fn picks_alone<C: Chooser>(rt: &impl Abort, chooser: &mut C, mask: u16, row: u32) {
    for left in [None, Some(row), Some(row.wrapping_add(1))] {
        picks(rt, chooser, mask, left, Some(row));
    }
}

fn single_rows(rt: &impl Abort) {
    let mut evening = Evening::new();
    for row in 1..=16 {
        let mask = 1 << (row - 1);
        picks_alone(rt, &mut Lowest, mask, row);
        picks_alone(rt, &mut Staying, mask, row);
        assert_eq!(rt; pick(&mut evening, mask, row, None), Some(row));
    }
}

#[test]
fn lowest_and_staying(rt: HostRuntime) {
    at_the_edges(&rt);
    single_rows(&rt);
}

// So many picks of one row.
fn pick_often(evening: &mut Evening, mask: u16, times: u32) {
    for _ in 0..times {
        let _ = pick(evening, mask, 3, Some(2));
    }
}

// A mask, and the row that evening picks after the questions before.
fn in_turn(rt: &impl Abort, evening: &mut Evening, turns: &[(u16, Option<u32>)]) {
    for (mask, row) in turns {
        assert_eq!(rt; pick(evening, *mask, 7, Some(5)), *row);
    }
}

// The smallest tally wins, then the lower row; an empty mask adds nothing to any tally.
fn evening_picks(rt: &impl Abort) {
    let mut evening = Evening::new();
    for turn in 0..48 {
        assert_eq!(rt; pick(&mut evening, 0, 0, None), None);
        assert_eq!(rt;
            pick(&mut evening, 0xffff, turn, Some(16)),
            Some(turn % 16 + 1)
        );
    }
    let turns = [
        (0x8001, Some(1)),
        (0x8001, Some(16)),
        (0x8001, Some(1)),
        (0x0003, Some(2)),
        (0x0003, Some(2)),
        (0x0003, Some(1)),
        (0x0000, None),
        (0x0003, Some(2)),
        (0x0007, Some(3)),
        (0x0006, Some(3)),
        (0x0006, Some(3)),
        (0x0006, Some(2)),
    ];
    in_turn(rt, &mut evening, &turns);
    // tallies 4, 5 and 5 of rows 1 to 3, and rows 2 and 3 vacant
    let mut worked = Evening::new();
    pick_often(&mut worked, 1, 4);
    pick_often(&mut worked, 2, 5);
    pick_often(&mut worked, 4, 5);
    in_turn(rt, &mut worked, &[(6, Some(2)), (6, Some(3)), (7, Some(1))]);
}

// A tally stays at 65,535, and then ties with every other that has come so far.
fn evening_stops(rt: &impl Abort) {
    let mut evening = Evening::new();
    pick_often(&mut evening, 4, 65535);
    in_turn(rt, &mut evening, &[(6, Some(2)), (4, Some(3))]);
    pick_often(&mut evening, 4, 1000);
    pick_often(&mut evening, 2, 65533);
    in_turn(
        rt,
        &mut evening,
        &[
            (6, Some(2)),
            (6, Some(2)),
            (6, Some(2)),
            (4, Some(3)),
            (6, Some(2)),
            (7, Some(1)),
        ],
    );
}

#[test]
fn tallies_even_out(rt: HostRuntime) {
    evening_picks(&rt);
    evening_stops(&rt);
}
