use crate::rows::{SERVER, SPACED};
use crate::steps::Answer::{Began, Ended, Filed};
use crate::steps::Call::{Begin, End, File};
use crate::steps::{NO_DUE, Seen, follow, look, opened_by};
use budget::row::BudgetRow;
use gate::gate::Gate;
use measures::refusal::Refusal;
use measures::refusal::Refusal::{LabCountOutOfRange, RateSumTooLarge};
use mixed::MixedRow;
use server::ServerRow;
use spaced::SpacedRow;
use std::fmt::Debug;
use std::process::Abort;
use turns::circular::CircularTurns;
use turns::longest_unserved::LongestUnservedTurns;
use turns::rule::TurnRule;
use waiting::queue_order::QueueOrder;

// A gate on which an import runs and a ticket waits, the shortest first.
fn busy(rt: &impl Abort, rows: &mut [SpacedRow; 1]) -> Gate<CircularTurns> {
    let mut gate = opened_by(rt, rows, CircularTurns::new(), QueueOrder::Short);
    let steps = [
        (File(4, 0, 3, NO_DUE), Filed(1)),
        (Begin(5), Began(0, 1, 3)),
        (File(6, 0, 2, NO_DUE), Filed(2)),
    ];
    follow(rt, &mut gate, rows, &steps);
    gate
}

// The table opens a gate, whatever went on there. A table of one row opens it after that.
fn check_opens<R: BudgetRow, const N: usize>(rt: &impl Abort, mut rows: [R; N]) {
    let mut gate = busy(rt, &mut [SPACED]);
    assert_eq!(rt; gate.open(&mut rows, QueueOrder::Arrival), Ok(()));
    let fresh = Seen {
        labs: N as u64,
        clock: 0,
        running: None,
        waiting: [0; 64],
    };
    assert_eq!(rt; look(&gate), fresh);
    assert_eq!(rt; gate.open(&mut [SPACED], QueueOrder::Arrival), Ok(()));
    assert_eq!(rt; gate.labs(), 1);
}

// The table opens no gate, for this reason, and what went on there goes on, the shortest first as before.
fn check_denied<R: BudgetRow + PartialEq + Debug, const N: usize>(
    rt: &impl Abort,
    mut rows: [R; N],
    refusal: Refusal,
) {
    let mut own = [SPACED];
    let mut gate = busy(rt, &mut own);
    let seen = look(&gate);
    let before = rows;
    assert_eq!(rt; gate.open(&mut rows, QueueOrder::Arrival), Err(refusal));
    assert_eq!(rt; look(&gate), seen);
    assert_eq!(rt; rows, before);
    let after = [
        (File(6, 0, 3, NO_DUE), Filed(3)),
        (End(8), Ended(1, 3, 4)),
        (Begin(15), Began(0, 2, 2)),
    ];
    follow(rt, &mut gate, &mut own, &after);
}

// A row in the middle of a pause.
fn pausing(rate: u64) -> SpacedRow {
    SpacedRow { rate, left: 5 }
}

// A table with other than 1 to 64 rows is denied for that, even where its rates are too large as well.
#[test]
fn from_1_row_to_64(rt: HostRuntime) {
    check_opens(&rt, [pausing(14)]);
    check_opens(&rt, [pausing(14); 64]);
    let none: [SpacedRow; 0] = [];
    check_denied(&rt, none, LabCountOutOfRange);
    for rate in [13, 14, 900] {
        check_denied(&rt, [pausing(rate); 65], LabCountOutOfRange);
    }
}

// Rates count as they are read: a stored 0 as 1, and a number above 999 as 999.
#[test]
fn rates_up_to_900(rt: HostRuntime) {
    for (first, second) in [(450, 450), (899, 1), (0, 899)] {
        check_opens(&rt, [pausing(first), pausing(second)]);
    }
}

#[test]
fn rates_above_900(rt: HostRuntime) {
    for (first, second) in [(450, 451), (900, 0), (u64::MAX, u64::MAX)] {
        check_denied(&rt, [pausing(first), pausing(second)], RateSumTooLarge);
    }
    check_denied(&rt, [pausing(15); 64], RateSumTooLarge);
}

#[test]
fn rates_of_both_budget_rules(rt: HostRuntime) {
    let server = MixedRow::Server(ServerRow {
        rate: 450,
        level: -1,
        ..SERVER
    });
    check_opens(&rt, [server, MixedRow::Spaced(pausing(450))]);
    let table = [server, MixedRow::Spaced(pausing(451))];
    check_denied(&rt, table, RateSumTooLarge);
}

// Labs 0 and 1 are served, lab 0 pauses, and lab 1 holds the lock. Then the gate is opened again: numbers begin with 1, every row is able,
// and lab 2 comes before the two.
fn check_opened_again<T: TurnRule + Drop>(rt: &impl Abort, turns: T) {
    let mut rows = [SPACED; 3];
    let mut gate = opened_by(rt, &mut rows, turns, QueueOrder::Arrival);
    let filings = [
        (File(0, 0, 1, NO_DUE), Filed(1)),
        (File(0, 1, 1, NO_DUE), Filed(2)),
        (File(0, 2, 1, NO_DUE), Filed(3)),
    ];
    follow(rt, &mut gate, &mut rows, &filings);
    let before = [
        (Begin(0), Began(0, 1, 1)),
        (End(3), Ended(1, 3, 3)),
        (Begin(3), Began(1, 2, 1)),
    ];
    follow(rt, &mut gate, &mut rows, &before);
    assert_eq!(rt; rows[0].wake(), 7);
    assert_eq!(rt; gate.open(&mut rows, QueueOrder::Arrival), Ok(()));
    assert_eq!(rt; rows, [SPACED; 3]);
    follow(rt, &mut gate, &mut rows, &filings);
    let after = [
        (Begin(0), Began(2, 3, 1)),
        (End(0), Ended(3, 0, 0)),
        (Begin(0), Began(0, 1, 1)),
        (End(0), Ended(1, 0, 0)),
        (Begin(0), Began(1, 2, 1)),
    ];
    follow(rt, &mut gate, &mut rows, &after);
}

#[test]
fn the_turn_rule_keeps_its_order(rt: HostRuntime) {
    check_opened_again(&rt, CircularTurns::new());
    check_opened_again(&rt, LongestUnservedTurns::new());
}
