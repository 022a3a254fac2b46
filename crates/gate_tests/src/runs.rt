use crate::rows::{SERVER, SPACED};
use crate::steps::Answer::{Began, Denied, Ended, Filed, Nothing, Wait, Withdrawn};
use crate::steps::Call::{Begin, End, File, Withdraw};
use crate::steps::{NO_DUE, follow, follow_levels, opened};
use history::import::Import;
use measures::limits::LAST_TICK;
use measures::refusal::Refusal::{LockHeld, TickOutOfRange};
use mixed::MixedRow;
use server::ServerRow;

// The row is charged for the ticks held, whatever length was declared.
#[test]
fn as_declared_shorter_longer_and_empty(rt: HostRuntime) {
    for (length, end, held, level) in [
        (3, 8, 3, -1400),
        (3, 6, 1, 200),
        (1, 9, 4, -2200),
        (1_000_000, 5, 0, 1000),
    ] {
        let mut rows = [SERVER];
        let mut gate = opened(&rt, &mut rows);
        let steps = [
            (File(1, 0, length, NO_DUE), Filed(1), [200]),
            (Begin(5), Began(0, 1, length), [1000]),
            (End(end), Ended(1, held, end - 1), [level]),
        ];
        follow_levels(&rt, &mut gate, &mut rows, &steps);
    }
}

// While lab 0 runs, its row keeps its level, and that of lab 1 fills up to its ceiling; then it is the other way round.
#[test]
fn only_the_others_rest(rt: HostRuntime) {
    let quicker = ServerRow {
        rate: 300,
        ..SERVER
    };
    let mut rows = [SERVER, quicker];
    let mut gate = opened(&rt, &mut rows);
    let steps = [
        (File(0, 0, 3, NO_DUE), Filed(1), [0, 0]),
        (File(2, 1, 1, NO_DUE), Filed(2), [400, 600]),
        (Begin(5), Began(0, 1, 3), [1000, 1500]),
        (File(6, 0, 2, NO_DUE), Filed(3), [1000, 1800]),
        (Begin(7), Denied(LockHeld), [1000, 1800]),
        (Withdraw(7, 3), Withdrawn(0), [1000, 2000]),
        (End(8), Ended(1, 3, 8), [-1400, 2000]),
        (Begin(9), Began(1, 2, 1), [-1200, 2000]),
        (File(10, 0, 1, NO_DUE), Filed(4), [-1000, 2000]),
        (End(12), Ended(2, 3, 10), [-600, -100]),
        (Begin(13), Wait(20), [-400, 200]),
    ];
    follow_levels(&rt, &mut gate, &mut rows, &steps);
}

#[test]
fn rows_of_both_budget_rules(rt: HostRuntime) {
    let mut rows = [MixedRow::Server(SERVER), MixedRow::Spaced(SPACED)];
    let mut gate = opened(&rt, &mut rows);
    let steps = [
        (File(0, 0, 3, NO_DUE), Filed(1), [0, 0]),
        (File(0, 1, 2, NO_DUE), Filed(2), [0, 0]),
        (Begin(0), Began(1, 2, 2), [0, 0]),
        (File(1, 1, 1, NO_DUE), Filed(3), [200, 0]),
        (End(2), Ended(2, 2, 2), [400, -1500]),
        (Begin(2), Wait(5), [400, -1500]),
        (Begin(5), Began(0, 1, 3), [1000, -600]),
        (End(8), Ended(1, 3, 8), [-1400, 0]),
        (Begin(8), Began(1, 3, 1), [-1400, 0]),
        (End(9), Ended(3, 1, 8), [-1200, -900]),
    ];
    follow_levels(&rt, &mut gate, &mut rows, &steps);
}

#[test]
fn at_the_last_tick(rt: HostRuntime) {
    let mut rows = [SPACED; 2];
    let mut gate = opened(&rt, &mut rows);
    let steps = [
        (File(LAST_TICK, 0, 1, LAST_TICK), Filed(1)),
        (File(LAST_TICK, 1, 1, LAST_TICK), Filed(2)),
        (File(LAST_TICK + 1, 0, 1, LAST_TICK), Denied(TickOutOfRange)),
        (Withdraw(LAST_TICK + 1, 2), Denied(TickOutOfRange)),
        (Withdraw(LAST_TICK, 2), Withdrawn(1)),
        (Begin(LAST_TICK + 1), Denied(TickOutOfRange)),
        (Begin(LAST_TICK), Began(0, 1, 1)),
        (End(LAST_TICK + 1), Denied(TickOutOfRange)),
        (End(LAST_TICK), Ended(1, 0, 0)),
        (Begin(LAST_TICK), Nothing),
    ];
    follow(&rt, &mut gate, &mut rows, &steps);
}

// A wait may be until a tick above the last, at which no call is granted.
#[test]
fn up_to_the_last_tick(rt: HostRuntime) {
    let mut rows = [SERVER];
    let mut gate = opened(&rt, &mut rows);
    let low = -799_999_999_995_000;
    let steps = [
        (File(0, 0, 1, NO_DUE), Filed(1), [0]),
        (File(0, 0, 1, NO_DUE), Filed(2), [0]),
        (Begin(5), Began(0, 1, 1), [1000]),
        (End(LAST_TICK), Ended(1, LAST_TICK - 5, LAST_TICK), [low]),
        (Begin(LAST_TICK), Wait(4_999_999_999_980), [low]),
        (Begin(4_999_999_999_980), Denied(TickOutOfRange), [low]),
    ];
    follow_levels(&rt, &mut gate, &mut rows, &steps);
    let deepest = ServerRow {
        rate: 1,
        ceiling: 1_000_000_000,
        threshold: 1_000_000_000,
        level: i64::MIN,
        able: true,
    };
    let longest = (Begin(LAST_TICK), Wait(1_000_001_000_000_000));
    follow(&rt, &mut gate, &mut [deepest], &[longest]);
}

#[test]
fn who_runs(rt: HostRuntime) {
    let mut rows = [SPACED; 2];
    let mut gate = opened(&rt, &mut rows);
    assert_eq!(rt; gate.running(), None);
    let steps = [
        (File(3, 0, 9, NO_DUE), Filed(1)),
        (File(4, 1, 7, NO_DUE), Filed(2)),
        (Withdraw(4, 1), Withdrawn(0)),
        (Begin(6), Began(1, 2, 7)),
        (File(8, 0, 5, NO_DUE), Filed(3)),
    ];
    follow(&rt, &mut gate, &mut rows, &steps);
    let import = Import {
        lab: 1,
        number: 2,
        length: 7,
        filed: 4,
        began: 6,
    };
    assert_eq!(rt; gate.running(), Some(import));
}
