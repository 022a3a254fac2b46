use crate::rows::{SERVER, SPACED};
use crate::steps::Answer::{Began, Denied, Ended, Filed, Nothing, Withdrawn};
use crate::steps::Call::{Begin, End, File, Withdraw};
use crate::steps::{Answer, Call, NO_DUE, follow, look, opened};
use budget::row::BudgetRow;
use gate::gate::Gate;
use measures::limits::LAST_TICK;
use measures::refusal::Refusal::{
    LockFree, NoSuchLab, NoSuchTicket, TableMismatch, TickOutOfRange,
};
use server::ServerRow;
use spaced::SpacedRow;
use std::fmt::Debug;
use std::process::Abort;
use turns::circular::CircularTurns;

const NO_ROWS: [SpacedRow; 0] = [];

const MISMATCHES: [(Call, Answer); 4] = [
    (File(LAST_TICK, 0, 1, NO_DUE), Denied(TableMismatch)),
    (Withdraw(LAST_TICK, 1), Denied(TableMismatch)),
    (Begin(LAST_TICK), Denied(TableMismatch)),
    (End(LAST_TICK), Denied(TableMismatch)),
];

// A gate that was never opened has no lab.
#[test]
fn never_opened(rt: HostRuntime) {
    let mut gate = Gate::new(CircularTurns::new());
    follow(&rt, &mut gate, &mut [SPACED], &MISMATCHES);
    let steps = [
        (File(0, 0, 1, NO_DUE), Denied(NoSuchLab)),
        (Withdraw(0, 1), Denied(NoSuchTicket)),
        (End(0), Denied(LockFree)),
        (Begin(0), Nothing),
        (Begin(7), Nothing),
        (Begin(6), Denied(TickOutOfRange)),
        (Begin(LAST_TICK + 1), Denied(TickOutOfRange)),
    ];
    follow(&rt, &mut gate, &mut NO_ROWS, &steps);
    follow(&rt, &mut gate, &mut [SPACED], &MISMATCHES);
}

// Between granted calls on the gate's own table, tables with fewer and with more rows are brought.
#[test]
fn other_tables_between(rt: HostRuntime) {
    let steps = [
        (File(1, 0, 3, NO_DUE), Filed(1)),
        (File(2, 1, 1, NO_DUE), Filed(2)),
        (File(2, 1, 1, NO_DUE), Filed(3)),
        (Begin(3), Began(0, 1, 3)),
        (Withdraw(4, 3), Withdrawn(1)),
        (End(6), Ended(1, 3, 5)),
        (Begin(6), Began(1, 2, 1)),
        (End(8), Ended(2, 2, 6)),
    ];
    let mut rows = [SPACED; 2];
    let mut gate = opened(&rt, &mut rows);
    for step in steps {
        follow(&rt, &mut gate, &mut NO_ROWS, &MISMATCHES);
        follow(&rt, &mut gate, &mut [SPACED], &MISMATCHES);
        follow(&rt, &mut gate, &mut [SERVER; 3], &MISMATCHES);
        follow(&rt, &mut gate, &mut [SPACED; 65], &MISMATCHES);
        follow(&rt, &mut gate, &mut rows, &[step]);
    }
    assert_eq!(rt; rows, [SpacedRow { rate: 300, left: 5 }; 2]);
}

// From tick 5 to tick 8 lab 0 holds the lock, and at the end another table of two rows is brought. It is left like this, the lock is free,
// and the gate's own row was not told of the run.
fn check_exchanged<R: BudgetRow + PartialEq + Debug>(
    rt: &impl Abort,
    mut other: [R; 2],
    left: [R; 2],
) {
    let mut rows = [SPACED; 2];
    let mut gate = opened(rt, &mut rows);
    let before = [
        (File(0, 0, 1, NO_DUE), Filed(1)),
        (File(1, 0, 1, NO_DUE), Filed(2)),
        (Begin(5), Began(0, 1, 1)),
    ];
    follow(rt, &mut gate, &mut rows, &before);
    follow(rt, &mut gate, &mut other, &[(End(8), Ended(1, 3, 8))]);
    assert_eq!(rt; other, left);
    assert_eq!(rt; look(&gate).running, None);
    follow(rt, &mut gate, &mut rows, &[(Begin(8), Began(0, 2, 1))]);
}

// A row that is not able is not charged. In the last of these the mark says able, but the level is below 0.
#[test]
fn exchanged_at_an_end(rt: HostRuntime) {
    let pausing = |left| SpacedRow { rate: 300, left };
    check_exchanged(&rt, [SPACED; 2], [pausing(7), SPACED]);
    check_exchanged(&rt, [pausing(9); 2], [pausing(9), pausing(6)]);
    let indebted = ServerRow {
        level: -1,
        able: true,
        ..SERVER
    };
    let risen = ServerRow {
        level: 599,
        ..SERVER
    };
    check_exchanged(&rt, [indebted; 2], [indebted, risen]);
}
