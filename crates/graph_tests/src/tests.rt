// What small rules give over the query graph.
use query_tests::{
    Between, Cell, Edit, Input, Outcome, PickKey, Shown, Turn, compare, demand_together, edit_all,
    play, sweep_after, sweep_between, sweep_once,
};
use std::marker::Brand;
use std::sync::ledger::Blank;

static TURNS: [Turn; 5] = [
    Turn {
        input: Input::In2,
        value: 8,
        demands: true,
    },
    Turn {
        input: Input::In0,
        value: 1,
        demands: true,
    },
    Turn {
        input: Input::In1,
        value: 6,
        demands: true,
    },
    Turn {
        input: Input::In0,
        value: 0,
        demands: false,
    },
    Turn {
        input: Input::In0,
        value: 1,
        demands: true,
    },
];

static WANTED: [Outcome; 6] = [
    Outcome {
        value: Some(5),
        runs: 1,
        records: 4,
    },
    Outcome {
        value: Some(5),
        runs: 0,
        records: 4,
    },
    Outcome {
        value: Some(8),
        runs: 1,
        records: 4,
    },
    Outcome {
        value: Some(8),
        runs: 0,
        records: 4,
    },
    Outcome {
        value: None,
        runs: 0,
        records: 4,
    },
    Outcome {
        value: Some(8),
        runs: 1,
        records: 4,
    },
];

// The last turn runs `Pick` again, since the stamp of the first input moved twice.
#[test]
fn a_choice_runs_where_it_is_due(rt: HostRuntime) {
    let outcomes = play::<Brand>(rt.alloc(), Blank::new(1), &TURNS).expect(&rt, "memory");
    assert_eq!(rt; outcomes.len(), WANTED.len());
    for (outcome, wanted) in outcomes.iter().zip(WANTED.iter()) {
        assert_eq!(rt; *outcome, *wanted);
    }
}

static EDITS: [Edit; 17] = [
    // a diamond: both sides and the top run once, and an edit that leaves the half stops there
    Edit {
        input: 0,
        value: 4,
        demand: Cell::Top,
    },
    Edit {
        input: 0,
        value: 5,
        demand: Cell::Top,
    },
    Edit {
        input: 0,
        value: 8,
        demand: Cell::Top,
    },
    Edit {
        input: 1,
        value: 9,
        demand: Cell::Top,
    },
    // a chain of ten
    Edit {
        input: 0,
        value: 8,
        demand: Cell::Chain(9),
    },
    Edit {
        input: 0,
        value: 9,
        demand: Cell::Chain(9),
    },
    Edit {
        input: 0,
        value: 10,
        demand: Cell::Chain(9),
    },
    // a row of twenty
    Edit {
        input: 3,
        value: 6,
        demand: Cell::Wide(20),
    },
    Edit {
        input: 19,
        value: 7,
        demand: Cell::Wide(20),
    },
    Edit {
        input: 3,
        value: 7,
        demand: Cell::Wide(20),
    },
    Edit {
        input: 3,
        value: 7,
        demand: Cell::Wide(20),
    },
    // a row of ten over one input
    Edit {
        input: 0,
        value: 12,
        demand: Cell::All(10),
    },
    Edit {
        input: 0,
        value: 13,
        demand: Cell::All(10),
    },
    Edit {
        input: 0,
        value: 14,
        demand: Cell::All(10),
    },
    // a row of twenty, asked for one after the other
    Edit {
        input: 5,
        value: 8,
        demand: Cell::Each(20),
    },
    Edit {
        input: 5,
        value: 9,
        demand: Cell::Each(20),
    },
    Edit {
        input: 19,
        value: 9,
        demand: Cell::Each(20),
    },
];

static SHOWN: [Shown; 17] = [
    Shown { value: 2, runs: 4 },
    Shown { value: 2, runs: 1 },
    Shown { value: 4, runs: 4 },
    Shown { value: 4, runs: 0 },
    Shown { value: 4, runs: 10 },
    Shown { value: 4, runs: 1 },
    Shown { value: 5, runs: 11 },
    Shown { value: 0, runs: 20 },
    Shown { value: 3, runs: 2 },
    Shown { value: 3, runs: 1 },
    Shown { value: 3, runs: 0 },
    Shown { value: 6, runs: 12 },
    Shown { value: 6, runs: 1 },
    Shown { value: 7, runs: 12 },
    Shown { value: 3, runs: 2 },
    Shown { value: 3, runs: 1 },
    Shown { value: 4, runs: 2 },
];

#[test]
fn cells_run_where_they_are_due(rt: HostRuntime) {
    let all = edit_all::<Brand>(rt.alloc(), Blank::new(1), &EDITS).expect(&rt, "memory");
    assert_eq!(rt; all.len(), SHOWN.len());
    for (one, wanted) in all.iter().zip(SHOWN.iter()) {
        assert_eq!(rt; *one, *wanted);
    }
}
// Nothing is a root, so `Pick` goes and its inputs stay; the next demand runs it anew.
#[test]
fn a_sweep_without_roots_removes_the_choice(rt: HostRuntime) {
    let swept = sweep_between::<Brand>(rt.alloc(), Blank::new(1), &[]).expect(&rt, "memory");
    assert_eq!(rt;
        swept,
        Between {
            removed: 1,
            left: 3,
            after: Outcome {
                value: Some(5),
                runs: 1,
                records: 4,
            },
        }
    );
}

#[test]
fn a_root_stays(rt: HostRuntime) {
    let roots = [PickKey::Pick];
    let swept = sweep_between::<Brand>(rt.alloc(), Blank::new(1), &roots).expect(&rt, "memory");
    assert_eq!(rt;
        swept,
        Between {
            removed: 0,
            left: 4,
            after: Outcome {
                value: Some(5),
                runs: 0,
                records: 4,
            },
        }
    );
}

// With `rt try --test --fail-alloc N` an allocation of the sweep fails, and all records stay.
#[test]
fn a_sweep_removes_all_or_nothing(rt: HostRuntime) {
    let (removed, left) = sweep_once::<Brand>(rt.alloc(), Blank::new(1)).expect(&rt, "memory");
    match removed {
        Some(count) => {
            assert_eq!(rt; count, 1);
            assert_eq!(rt; left, 3);
        }
        None => assert_eq!(rt; left, 4),
    }
}

// The half, the diamond and the chain run once, whichever root reaches them.
#[test]
fn demands_of_a_revision_share_their_runs(rt: HostRuntime) {
    let roots = [Cell::Top, Cell::Chain(2), Cell::Top, Cell::Chain(1)];
    let runs = demand_together::<Brand>(rt.alloc(), Blank::new(1), &roots).expect(&rt, "memory");
    assert_eq!(rt; runs, 7);
}

// Edits, demands, refused ones too, and sweeps of random knots give the same on a graph that is as plain as can be.
#[test]
fn a_plain_graph_agrees(rt: HostRuntime) {
    let all = compare::<Brand>(rt.alloc(), Blank::new(1), 1, 2000).expect(&rt, "memory");
    assert_eq!(rt; all.agreed, 2000);
    assert!(rt; all.ran > 2000);
    assert!(rt; all.removed > 2000);
    assert!(rt; all.refused > 50);
}

struct Sweep {
    root: Cell,
    removed: usize,
    left: usize,
    runs: [usize; 2],
}

// Over the half of input 0 stand a diamond of three cells and a chain of three.
static SHARED: [Edit; 2] = [
    Edit {
        input: 0,
        value: 4,
        demand: Cell::Top,
    },
    Edit {
        input: 0,
        value: 4,
        demand: Cell::Chain(2),
    },
];

static SWEEPS: [Sweep; 4] = [
    Sweep {
        root: Cell::Top,
        removed: 3,
        left: 5,
        runs: [0, 3],
    },
    Sweep {
        root: Cell::Chain(1),
        removed: 4,
        left: 4,
        runs: [3, 1],
    },
    Sweep {
        root: Cell::Half(0),
        removed: 6,
        left: 2,
        runs: [3, 3],
    },
    // a root without a record uses nothing
    Sweep {
        root: Cell::Chain(3),
        removed: 7,
        left: 1,
        runs: [4, 3],
    },
];

#[test]
fn what_a_root_shares_stays(rt: HostRuntime) {
    for sweep in SWEEPS.iter() {
        let roots = [sweep.root];
        let swept = sweep_after::<Brand>(rt.alloc(), Blank::new(1), &SHARED, &roots).expect(
            &rt, "memory",
        );
        assert_eq!(rt; swept.removed, sweep.removed);
        assert_eq!(rt; swept.left, sweep.left);
        for (shown, wanted) in swept.again.iter().zip(sweep.runs.iter()) {
            assert_eq!(rt; shown.value, 2);
            assert_eq!(rt; shown.runs, *wanted);
        }
    }
}
