//! The racks on which lists of calls are drawn.
use crate::tests::ledger::Rack;
use crate::tests::prefixed::Prefixed;
use crate::tests::runs::{Draws, Trial};
use board::evening::Evening;
use board::lowest::Lowest;
use board::staying::Staying;
use rules::rack::Sizes;
use rules::report::Action;
use std::alloc::Global;
use std::process::Abort;
use std::test::Fail;

// The chooser of a run: one of the three at every call, or another one at each.
#[derive(Clone, Copy, Debug)]
enum Mode {
    Lowest,
    Staying,
    Evening,
    Mixed,
}

// As many calls as are asked for, and a look at everything now and then.
fn run(rt: &impl Abort, trial: &mut Trial, mode: Mode) -> Result<(), Fail> {
    let mut evening = Evening::new();
    for call in 0..trial.draws.calls {
        let drawn = trial.chance.below(3);
        let here = Prefixed::new(rt, format_args!("call {call}, mode {mode:?}"));
        // each chooser is a type of its own, and a `dyn` cannot stand for a type parameter
        match (mode, drawn) {
            (Mode::Lowest, _) | (Mode::Mixed, 0) => trial.call(&here, &mut Lowest)?,
            (Mode::Staying, _) | (Mode::Mixed, 1) => trial.call(&here, &mut Staying)?,
            (Mode::Evening, _) | (Mode::Mixed, _) => trial.call(&here, &mut evening)?,
        }
        if call % 16 == 15 {
            trial.survey(&Prefixed::new(rt, format_args!("after call {call}, mode {mode:?}")))?;
        }
    }
    trial.survey(rt)
}

const ACTIONS: [Action; 6] = [
    Action::Wipe,
    Action::Over,
    Action::Without,
    Action::Grant,
    Action::Mark,
    Action::Wall,
];

// What the runs so far have told: how many reports of each action, and hand-backs.
#[derive(Clone, Copy, Default, Debug)]
struct Sums {
    reports: [usize; 6],
    returned: usize,
}

impl Sums {
    fn add(&mut self, trial: &Trial) {
        for (sum, action) in self.reports.iter_mut().zip(ACTIONS) {
            *sum = sum.saturating_add(trial.ledger.reports_of(action));
        }
        self.returned = self.returned.saturating_add(trial.returned);
    }

    // Each action, and handing back, has come often enough for the runs to say something.
    fn enough(&self, rt: &impl Abort, least: usize) {
        assert!(rt; self.returned >= least, "{self:?}");
        assert!(rt; self.reports.iter().all(|sum| *sum >= least), "{self:?}");
    }
}

// A run in each mode, with a seed of its own.
fn all_modes(
    rt: &impl Abort,
    heap: Global,
    draws: Draws,
    seed: u32,
    sums: &mut Sums,
) -> Result<(), Fail> {
    let modes = [Mode::Lowest, Mode::Staying, Mode::Evening, Mode::Mixed];
    for (mode, last) in modes.into_iter().zip(0..) {
        let mut trial = Trial::new(heap, draws, seed.wrapping_mul(4).wrapping_add(last))?;
        run(
            &Prefixed::new(rt, format_args!("seed {seed}, {draws:?}")),
            &mut trial,
            mode,
        )?;
        sums.add(&trial);
    }
    Ok(())
}

// One of the 675 small racks.
fn small(code: u32) -> Draws {
    let columns = code / 3 % 9 + 1;
    Draws {
        rack: Rack {
            sizes: Sizes {
                rows: code % 3 + 1,
                columns,
                places: code / 27 % 5 + 1,
                lead: code / 135 % 5,
            },
            first: code.wrapping_add(1),
        },
        base: 0,
        spread: columns + 1,
        longest: columns,
        newest: code % 4 == 3,
        calls: 1000,
    }
}

#[test]
fn small_racks(rt: HostRuntime) -> Result<(), Fail> {
    let mut sums = Sums::default();
    for code in 0..675 {
        all_modes(&rt, rt.alloc(), small(code), code + 77, &mut sums)?;
    }
    sums.enough(&rt, 10000);
    Ok(())
}

fn full(lead: u32, first: u32, base: u32, longest: u32, newest: bool) -> Draws {
    Draws {
        rack: Rack {
            sizes: Sizes {
                rows: 16,
                columns: 256,
                places: 64,
                lead,
            },
            first,
        },
        base,
        spread: 256u32.wrapping_sub(base),
        longest,
        newest,
        calls: 8000,
    }
}

#[test]
fn full_racks(rt: HostRuntime) -> Result<(), Fail> {
    let racks = [
        full(0, 1, 0, 65, false),
        full(64, 1000000000, 0, 65, false),
        full(0, 1000000000, 190, 65, false),
        full(64, 1, 190, 65, true),
        full(0, 1, 236, 16, true),
        full(64, 1, 236, 16, false),
        full(64, 1, 250, 6, false),
    ];
    let mut sums = Sums::default();
    for (draws, seed) in racks.into_iter().zip(900..) {
        all_modes(&rt, rt.alloc(), draws, seed, &mut sums)?;
    }
    sums.enough(&rt, 1000);
    Ok(())
}
