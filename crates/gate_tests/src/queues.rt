use crate::rows::SPACED;
use crate::steps::Answer::{Began, Denied, Ended, Filed, Nothing, Withdrawn};
use crate::steps::Call::{Begin, End, File, Withdraw};
use crate::steps::{NO_DUE, fill, follow, opened, opened_by};
use gate::gate::Gate;
use measures::refusal::Refusal::{NoSuchTicket, QueueFull};
use spaced::SpacedRow;
use std::process::Abort;
use turns::circular::CircularTurns;
use waiting::queue_order::QueueOrder;

// The tickets with numbers 1 to 6, of one lab.
pub fn filed(rt: &impl Abort, rows: &mut [SpacedRow; 1], order: QueueOrder) -> Gate<CircularTurns> {
    let mut gate = opened_by(rt, rows, CircularTurns::new(), order);
    let steps = [
        (File(0, 0, 5, NO_DUE), Filed(1)),
        (File(0, 0, 3, 40), Filed(2)),
        (File(0, 0, 5, 40), Filed(3)),
        (File(0, 0, 1, NO_DUE), Filed(4)),
        (File(0, 0, 3, 40), Filed(5)),
        (File(0, 0, 2, 7), Filed(6)),
    ];
    follow(rt, &mut gate, rows, &steps);
    gate
}

// Tickets begin in this order, told by number and length, and then none waits.
fn check_order(
    rt: &impl Abort,
    gate: &mut Gate<CircularTurns>,
    rows: &mut [SpacedRow; 1],
    tickets: &[(u64, u64)],
) {
    for (number, length) in tickets {
        let steps = [
            (Begin(0), Began(0, *number, *length)),
            (End(0), Ended(*number, 0, 0)),
        ];
        follow(rt, gate, rows, &steps);
    }
    follow(rt, gate, rows, &[(Begin(0), Nothing)]);
}

// Of equal due ticks or lengths the lower number comes first, and those with no due date come last.
#[test]
fn by_arrival_due_tick_and_length(rt: HostRuntime) {
    for (order, tickets) in [
        (
            QueueOrder::Arrival,
            [(1, 5), (2, 3), (3, 5), (4, 1), (5, 3), (6, 2)],
        ),
        (
            QueueOrder::Due,
            [(6, 2), (2, 3), (3, 5), (5, 3), (1, 5), (4, 1)],
        ),
        (
            QueueOrder::Short,
            [(4, 1), (6, 2), (2, 3), (5, 3), (1, 5), (3, 5)],
        ),
    ] {
        let mut rows = [SPACED];
        let mut gate = filed(&rt, &mut rows, order);
        check_order(&rt, &mut gate, &mut rows, &tickets);
    }
}

// A ticket that has begun or was withdrawn waits no more. The others keep their order, and numbers go on.
#[test]
fn withdrawn_and_begun(rt: HostRuntime) {
    let mut rows = [SPACED];
    let mut gate = filed(&rt, &mut rows, QueueOrder::Short);
    let steps = [
        (Withdraw(0, 5), Withdrawn(0)),
        (Withdraw(0, 5), Denied(NoSuchTicket)),
        (Begin(0), Began(0, 4, 1)),
        (Withdraw(0, 4), Denied(NoSuchTicket)),
        (Withdraw(0, 1), Withdrawn(0)),
        (End(0), Ended(4, 0, 0)),
        (Withdraw(0, 4), Denied(NoSuchTicket)),
        (File(0, 0, 2, NO_DUE), Filed(7)),
    ];
    follow(&rt, &mut gate, &mut rows, &steps);
    check_order(&rt, &mut gate, &mut rows, &[(6, 2), (7, 2), (2, 3), (3, 5)]);
}

// A queue is in order of due ticks; which lab comes first is for the turn rule alone.
#[test]
fn of_several_labs(rt: HostRuntime) {
    let mut rows = [SPACED; 3];
    let mut gate = opened_by(&rt, &mut rows, CircularTurns::new(), QueueOrder::Due);
    let steps = [
        (File(0, 2, 1, 3), Filed(1)),
        (File(0, 0, 1, 9), Filed(2)),
        (File(0, 2, 1, 2), Filed(3)),
        (File(0, 1, 1, NO_DUE), Filed(4)),
        (File(0, 2, 1, 1), Filed(5)),
        (Withdraw(0, 3), Withdrawn(2)),
        (Withdraw(0, 2), Withdrawn(0)),
        (Begin(0), Began(1, 4, 1)),
        (End(0), Ended(4, 0, 0)),
        (Begin(0), Began(2, 5, 1)),
        (End(0), Ended(5, 0, 0)),
        (Begin(0), Began(2, 1, 1)),
        (End(0), Ended(1, 0, 0)),
        (Begin(0), Nothing),
    ];
    follow(&rt, &mut gate, &mut rows, &steps);
}

#[test]
fn full(rt: HostRuntime) {
    let mut rows = [SPACED; 2];
    let mut gate = opened(&rt, &mut rows);
    fill(&rt, &mut gate, &mut rows, 0, 0);
    let steps = [
        (File(0, 0, 1, NO_DUE), Denied(QueueFull)),
        (File(0, 1, 1, NO_DUE), Filed(17)),
        (Begin(0), Began(0, 1, 1)),
        (File(0, 0, 1, NO_DUE), Filed(18)),
        (File(0, 0, 1, NO_DUE), Denied(QueueFull)),
        (Withdraw(0, 9), Withdrawn(0)),
        (File(0, 0, 1, NO_DUE), Filed(19)),
        (File(0, 0, 1, NO_DUE), Denied(QueueFull)),
        (End(0), Ended(1, 0, 0)),
        (File(0, 0, 1, NO_DUE), Denied(QueueFull)),
    ];
    follow(&rt, &mut gate, &mut rows, &steps);
    for (lab, count) in [(0, 16), (1, 1), (2, 0), (63, 0), (64, 0), (u64::MAX, 0)] {
        assert_eq!(rt; gate.count_waiting(lab), count);
    }
}
