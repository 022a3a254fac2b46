use crate::rows::SPACED;
use crate::steps::Answer::{Began, Ended, Filed, Nothing, Wait};
use crate::steps::Call::{Begin, End, File};
use crate::steps::{NO_DUE, follow, opened, opened_by};
use gate::gate::Gate;
use spaced::SpacedRow;
use std::process::Abort;
use turns::circular::CircularTurns;
use turns::longest_unserved::LongestUnservedTurns;
use turns::rule::TurnRule;
use waiting::queue_order::QueueOrder;

// At tick 0 each of these labs files an import, and the ticket has this number.
fn file_each<T: TurnRule, const N: usize>(
    rt: &impl Abort,
    gate: &mut Gate<T>,
    rows: &mut [SpacedRow; N],
    filings: &[(u64, u64)],
) {
    for (lab, number) in filings {
        let filing = (File(0, *lab, 1, NO_DUE), Filed(*number));
        follow(rt, gate, rows, &[filing]);
    }
}

// The same, and then these begin one after another, and end at once.
fn check_turns<T: TurnRule, const N: usize>(
    rt: &impl Abort,
    gate: &mut Gate<T>,
    rows: &mut [SpacedRow; N],
    filings: &[(u64, u64)],
    begun: &[(u64, u64)],
) {
    file_each(rt, gate, rows, filings);
    for (lab, number) in begun {
        let steps = [
            (Begin(0), Began(*lab, *number, 1)),
            (End(0), Ended(*number, 0, 0)),
        ];
        follow(rt, gate, rows, &steps);
    }
    follow(rt, gate, rows, &[(Begin(0), Nothing)]);
}

// First lab 0 is served and then lab 2. From there on the rules may differ.
fn check_rule<T: TurnRule + Drop>(rt: &impl Abort, turns: T, begun: &[(u64, u64)]) {
    let mut rows = [SPACED; 3];
    let mut gate = opened_by(rt, &mut rows, turns, QueueOrder::Arrival);
    let first = [(0, 1), (2, 2)];
    check_turns(rt, &mut gate, &mut rows, &first, &first);
    let then = [(2, 3), (1, 4), (0, 5), (0, 6), (1, 7)];
    check_turns(rt, &mut gate, &mut rows, &then, begun);
}

#[test]
fn where_the_rules_differ(rt: HostRuntime) {
    let circular = [(0, 5), (1, 4), (2, 3), (0, 6), (1, 7)];
    check_rule(&rt, CircularTurns::new(), &circular);
    let longest = [(1, 4), (0, 5), (2, 3), (1, 7), (0, 6)];
    check_rule(&rt, LongestUnservedTurns::new(), &longest);
}

// Each of three labs files two imports, and under either rule they take turns.
fn check_round<T: TurnRule + Drop>(rt: &impl Abort, turns: T) {
    let mut rows = [SPACED; 3];
    let mut gate = opened_by(rt, &mut rows, turns, QueueOrder::Arrival);
    let filings = [(0, 1), (0, 2), (1, 3), (1, 4), (2, 5), (2, 6)];
    let begun = [(0, 1), (1, 3), (2, 5), (0, 2), (1, 4), (2, 6)];
    check_turns(rt, &mut gate, &mut rows, &filings, &begun);
}

#[test]
fn round_after_round(rt: HostRuntime) {
    check_round(&rt, CircularTurns::new());
    check_round(&rt, LongestUnservedTurns::new());
}

// As many labs as there may be file, the last one first.
#[test]
fn labs_0_to_63(rt: HostRuntime) {
    let mut rows = [SpacedRow { rate: 14, left: 0 }; 64];
    let mut gate = opened(&rt, &mut rows);
    let mut filings = [(0, 0); 64];
    for (i, filing) in filings.iter_mut().enumerate() {
        *filing = (63 - i as u64, i as u64 + 1);
    }
    let mut begun = filings;
    begun.reverse();
    check_turns(&rt, &mut gate, &mut rows, &filings, &begun);
    let again = [(63, 65), (0, 66)];
    check_turns(&rt, &mut gate, &mut rows, &again, &[(0, 66), (63, 65)]);
}

// After a run of 3 ticks lab 0 is not able until tick 10. Until then lab 1 begins, though lab 0 is ahead of it once it has been served.
#[test]
fn passed_over_while_not_able(rt: HostRuntime) {
    let mut rows = [SPACED; 2];
    let mut gate = opened(&rt, &mut rows);
    let steps = [
        (File(0, 0, 3, NO_DUE), Filed(1)),
        (File(0, 0, 1, NO_DUE), Filed(2)),
        (File(0, 1, 1, NO_DUE), Filed(3)),
        (File(0, 1, 1, NO_DUE), Filed(4)),
        (File(0, 1, 1, NO_DUE), Filed(5)),
        (Begin(0), Began(0, 1, 3)),
        (End(3), Ended(1, 3, 3)),
        (Begin(3), Began(1, 3, 1)),
        (End(3), Ended(3, 0, 3)),
        (Begin(9), Began(1, 4, 1)),
        (End(9), Ended(4, 0, 9)),
        (Begin(10), Began(0, 2, 1)),
        (End(10), Ended(2, 0, 10)),
        (Begin(10), Began(1, 5, 1)),
    ];
    follow(&rt, &mut gate, &mut rows, &steps);
}

// A lab without tickets does not count: lab 2 is able all the time, and at tick 4 lab 1 has the smaller wake.
#[test]
fn the_smallest_wake_of_those_with_tickets(rt: HostRuntime) {
    let mut rows = [SPACED; 3];
    let mut gate = opened(&rt, &mut rows);
    let steps = [
        (File(0, 0, 3, NO_DUE), Filed(1)),
        (File(0, 0, 1, NO_DUE), Filed(2)),
        (File(0, 1, 1, NO_DUE), Filed(3)),
        (Begin(0), Began(0, 1, 3)),
        (End(3), Ended(1, 3, 3)),
        (Begin(3), Began(1, 3, 1)),
        (End(4), Ended(3, 1, 4)),
        (Begin(4), Wait(10)),
        (File(5, 1, 2, NO_DUE), Filed(4)),
        (Begin(5), Wait(7)),
        (Begin(6), Wait(7)),
        (Begin(7), Began(1, 4, 2)),
        (End(9), Ended(4, 2, 4)),
        (File(9, 1, 1, NO_DUE), Filed(5)),
        (Begin(9), Wait(10)),
        (Begin(10), Began(0, 2, 1)),
        (End(10), Ended(2, 0, 10)),
        (Begin(10), Wait(14)),
    ];
    follow(&rt, &mut gate, &mut rows, &steps);
}
