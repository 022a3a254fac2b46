use crate::rows::SERVER;
use crate::steps::Answer::{Began, Ended, Filed, Wait};
use crate::steps::Call::{Begin, End, File};
use crate::steps::{NO_DUE, follow, follow_levels, opened};
use budget::row::{BudgetRow, LevelRow};
use server::ServerRow;

// One lab has filed imports of 3 ticks and of 1.
#[test]
fn two_imports(rt: HostRuntime) {
    let mut rows = [SERVER];
    let mut gate = opened(&rt, &mut rows);
    let steps = [
        (File(0, 0, 3, NO_DUE), Filed(1), [0]),
        (File(0, 0, 1, NO_DUE), Filed(2), [0]),
        (Begin(0), Wait(5), [0]),
        (Begin(5), Began(0, 1, 3), [1000]),
        (End(8), Ended(1, 3, 8), [-1400]),
        (Begin(8), Wait(20), [-1400]),
        (Begin(20), Began(0, 2, 1), [1000]),
        (End(21), Ended(2, 1, 21), [200]),
    ];
    follow_levels(&rt, &mut gate, &mut rows, &steps);
    assert!(rt; rows[0].able());
}

// A first run that holds 2 ticks of its 3 leaves exactly nothing, which is enough, or a little debt, which is not.
#[test]
fn nothing_and_a_little_debt(rt: HostRuntime) {
    for (tick, level, wake) in [(8, 0, 0), (7, -200, 6)] {
        let mut rows = [SERVER];
        let mut gate = opened(&rt, &mut rows);
        let steps = [
            (File(0, 0, 3, NO_DUE), Filed(1)),
            (File(0, 0, 1, NO_DUE), Filed(2)),
            (Begin(tick), Began(0, 1, 3)),
            (End(tick + 2), Ended(1, 2, tick + 2)),
        ];
        follow(&rt, &mut gate, &mut rows, &steps);
        assert_eq!(rt; rows[0].level(), level);
        assert_eq!(rt; rows[0].wake(), wake);
        assert_eq!(rt; rows[0].able(), wake == 0);
    }
}

// Imports of 6, 1, 5 and 1 ticks start at 6, 12, 20 and 25, as is foretold of the row alone.
#[test]
fn four_imports(rt: HostRuntime) {
    let mut rows = [ServerRow {
        rate: 500,
        ceiling: 3000,
        threshold: 3000,
        ..SERVER
    }];
    let mut gate = opened(&rt, &mut rows);
    let steps = [
        (File(0, 0, 6, NO_DUE), Filed(1), [0]),
        (File(0, 0, 1, NO_DUE), Filed(2), [0]),
        (File(0, 0, 5, NO_DUE), Filed(3), [0]),
        (File(0, 0, 1, NO_DUE), Filed(4), [0]),
        (Begin(0), Wait(6), [0]),
        (Begin(6), Began(0, 1, 6), [3000]),
        (End(12), Ended(1, 6, 12), [0]),
        (Begin(12), Began(0, 2, 1), [0]),
        (End(13), Ended(2, 1, 13), [-500]),
        (Begin(13), Wait(20), [-500]),
        (Begin(20), Began(0, 3, 5), [3000]),
        (End(25), Ended(3, 5, 25), [500]),
        (Begin(25), Began(0, 4, 1), [500]),
        (End(26), Ended(4, 1, 26), [0]),
    ];
    follow_levels(&rt, &mut gate, &mut rows, &steps);
}
