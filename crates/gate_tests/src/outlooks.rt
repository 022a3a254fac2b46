use crate::queues::filed;
use crate::rows::{SERVER, SPACED};
use crate::steps::Answer::{Began, Denied, Ended, Filed, Wait, Withdrawn};
use crate::steps::Call::{Begin, End, File, Withdraw};
use crate::steps::{Answer, Call, NO_DUE, fill, follow, opened};
use budget::row::BudgetRow;
use gate::gate::Gate;
use measures::limits::LAST_TICK;
use measures::refusal::Refusal;
use measures::refusal::Refusal::{
    ListTooShort, LockHeld, NoSuchLab, TableMismatch, TickOutOfRange,
};
use outlook::entry::Entry;
use server::ServerRow;
use spaced::SpacedRow;
use std::process::Abort;
use turns::circular::CircularTurns;
use turns::rule::TurnRule;
use waiting::queue_order::QueueOrder;

// A place that nothing was written to.
const BLANK: Entry = Entry {
    number: 77,
    start: 78,
    end: 79,
};

const HALF: ServerRow = ServerRow {
    rate: 500,
    ceiling: 3000,
    threshold: 3000,
    ..SERVER
};

// What a place holds, as number, start and end; one past the last of the entries is blank.
fn check_place(rt: &impl Abort, place: Entry, entry: Option<&(u64, u64, u64)>) {
    let expected = entry.map_or(
        BLANK,
        |(number, start, end)| Entry {
            number: *number,
            start: *start,
            end: *end,
        },
    );
    assert_eq!(rt; place, expected);
}

// A list of so many blank places gets these entries, and keeps its other places.
fn check_list<T: TurnRule, R: BudgetRow>(
    rt: &impl Abort,
    gate: &Gate<T>,
    rows: &[R],
    lab: u64,
    list: &mut [Entry],
    entries: &[(u64, u64, u64)],
) {
    assert_eq!(rt; gate.outlook(rows, lab, list), Ok(entries.len() as u64));
    for (i, place) in list.iter().enumerate() {
        check_place(rt, *place, entries.get(i));
    }
}

fn check_outlook<T: TurnRule, R: BudgetRow>(
    rt: &impl Abort,
    gate: &Gate<T>,
    rows: &[R],
    lab: u64,
    entries: &[(u64, u64, u64)],
) {
    check_list(rt, gate, rows, lab, &mut [BLANK; 17], entries);
}

// An outlook is denied, and the list is as before.
fn check_denied<T: TurnRule, R: BudgetRow>(
    rt: &impl Abort,
    gate: &Gate<T>,
    rows: &[R],
    lab: u64,
    list: &mut [Entry],
    refusal: Refusal,
) {
    assert_eq!(rt; gate.outlook(rows, lab, list), Err(refusal));
    for place in list.iter() {
        assert_eq!(rt; *place, BLANK);
    }
}

const FOUR: [(Call, Answer); 4] = [
    (File(0, 0, 6, NO_DUE), Filed(1)),
    (File(0, 0, 1, NO_DUE), Filed(2)),
    (File(0, 0, 5, NO_DUE), Filed(3)),
    (File(0, 0, 1, NO_DUE), Filed(4)),
];

// Imports of 6, 1, 5 and 1 ticks are foretold to start at 6, 12, 20 and 25, and so they do when they are begun as soon as they can.
#[test]
fn four_imports(rt: HostRuntime) {
    let mut rows = [HALF];
    let mut gate = opened(&rt, &mut rows);
    follow(&rt, &mut gate, &mut rows, &FOUR);
    let entries = [(1, 6, 12), (2, 12, 13), (3, 20, 25), (4, 25, 26)];
    check_outlook(&rt, &gate, &rows, 0, &entries);
    let first = [(Begin(6), Began(0, 1, 6)), (End(12), Ended(1, 6, 12))];
    follow(&rt, &mut gate, &mut rows, &first);
    check_outlook(&rt, &gate, &rows, 0, &entries[1..]);
    let second = [
        (Begin(12), Began(0, 2, 1)),
        (End(13), Ended(2, 1, 13)),
        (Begin(19), Wait(20)),
    ];
    follow(&rt, &mut gate, &mut rows, &second);
    check_outlook(&rt, &gate, &rows, 0, &entries[2..]);
    let rest = [
        (Begin(20), Began(0, 3, 5)),
        (End(25), Ended(3, 5, 25)),
        (Begin(25), Began(0, 4, 1)),
        (End(26), Ended(4, 1, 26)),
    ];
    follow(&rt, &mut gate, &mut rows, &rest);
    check_outlook(&rt, &gate, &rows, 0, &[]);
}

// Once the second ticket is withdrawn, the third starts at 12, and the last at 28.
#[test]
fn without_the_second_ticket(rt: HostRuntime) {
    let mut rows = [HALF];
    let mut gate = opened(&rt, &mut rows);
    follow(&rt, &mut gate, &mut rows, &FOUR);
    follow(&rt, &mut gate, &mut rows, &[(Withdraw(0, 2), Withdrawn(0))]);
    check_outlook(
        &rt,
        &gate,
        &rows,
        0,
        &[(1, 6, 12), (3, 12, 17), (4, 28, 29)],
    );
}

// The same six tickets by arrival, by due tick and the shortest first. The runs of 1 to 6 are followed by pauses of 12, 7, 12, 3, 7 and 5
// ticks.
const ORDERS: [(QueueOrder, [(u64, u64, u64); 6]); 3] = [
    (
        QueueOrder::Arrival,
        [
            (1, 0, 5),
            (2, 17, 20),
            (3, 27, 32),
            (4, 44, 45),
            (5, 48, 51),
            (6, 58, 60),
        ],
    ),
    (
        QueueOrder::Due,
        [
            (6, 0, 2),
            (2, 7, 10),
            (3, 17, 22),
            (5, 34, 37),
            (1, 44, 49),
            (4, 61, 62),
        ],
    ),
    (
        QueueOrder::Short,
        [
            (4, 0, 1),
            (6, 4, 6),
            (2, 11, 14),
            (5, 21, 24),
            (1, 31, 36),
            (3, 48, 53),
        ],
    ),
];

#[test]
fn queue_orders(rt: HostRuntime) {
    for (order, entries) in ORDERS {
        let mut rows = [SPACED];
        let gate = filed(&rt, &mut rows, order);
        check_outlook(&rt, &gate, &rows, 0, &entries);
    }
}

// A list may have more places than there are tickets, or just as many, but not one fewer.
#[test]
fn places(rt: HostRuntime) {
    let mut rows = [HALF, SERVER];
    let mut gate = opened(&rt, &mut rows);
    follow(&rt, &mut gate, &mut rows, &FOUR);
    let entries = [(1, 6, 12), (2, 12, 13), (3, 20, 25), (4, 25, 26)];
    check_list(&rt, &gate, &rows, 0, &mut [BLANK; 20], &entries);
    check_list(&rt, &gate, &rows, 0, &mut [BLANK; 5], &entries);
    check_list(&rt, &gate, &rows, 0, &mut [BLANK; 4], &entries);
    check_denied(&rt, &gate, &rows, 0, &mut [BLANK; 3], ListTooShort);
    check_denied(&rt, &gate, &rows, 0, &mut [], ListTooShort);
    // a lab without tickets
    check_list(&rt, &gate, &rows, 1, &mut [BLANK; 3], &[]);
    check_list(&rt, &gate, &rows, 1, &mut [], &[]);
}

// Each lab's tickets run on its own row, from the clock on, as if those of others were not there. The row of one has rested meanwhile.
#[test]
fn from_the_clock_on(rt: HostRuntime) {
    let mut rows = [SERVER, SERVER, HALF];
    let mut gate = opened(&rt, &mut rows);
    let steps = [
        (File(0, 0, 3, NO_DUE), Filed(1)),
        (File(0, 2, 2, NO_DUE), Filed(2)),
        (File(3, 0, 1, NO_DUE), Filed(3)),
    ];
    follow(&rt, &mut gate, &mut rows, &steps);
    check_outlook(&rt, &gate, &rows, 0, &[(1, 5, 8), (3, 20, 21)]);
    check_outlook(&rt, &gate, &rows, 1, &[]);
    check_outlook(&rt, &gate, &rows, 2, &[(2, 6, 8)]);
    // from tick 7 on, with what the row has gained since tick 5
    let late = [(File(7, 1, 1, NO_DUE), Filed(4))];
    follow(&rt, &mut gate, &mut rows, &late);
    check_outlook(&rt, &gate, &rows, 0, &[(1, 7, 10), (3, 20, 21)]);
    check_outlook(&rt, &gate, &rows, 1, &[(4, 7, 8)]);
    check_outlook(&rt, &gate, &rows, 2, &[(2, 7, 9)]);
}

#[test]
fn a_full_queue(rt: HostRuntime) {
    let mut rows = [SpacedRow { rate: 500, left: 0 }];
    let mut gate = opened(&rt, &mut rows);
    fill(&rt, &mut gate, &mut rows, 4, 0);
    let mut list = [BLANK; 16];
    assert_eq!(rt; gate.outlook(&rows, 0, &mut list), Ok(16));
    for (i, entry) in list.iter().enumerate() {
        let start = 4 + 2 * i as u64;
        check_place(&rt, *entry, Some(&(i as u64 + 1, start, start + 1)));
    }
}

// A row in the deepest debt wakes after the last tick, and is rested for that in several counts. What is foretold then lies above the last
// tick, and nothing begins up to it.
#[test]
fn above_the_last_tick(rt: HostRuntime) {
    let mut rows = [SERVER];
    let mut gate = opened(&rt, &mut rows);
    let steps = [
        (File(10, 0, 1_000_000, NO_DUE), Filed(1)),
        (File(10, 0, 1, NO_DUE), Filed(2)),
    ];
    follow(&rt, &mut gate, &mut rows, &steps);
    rows[0] = ServerRow {
        rate: 1,
        ceiling: 1_000_000_000,
        threshold: 1_000_000_000,
        level: i64::MIN,
        able: false,
    };
    // (10^9 + 999 × 10^12) / 1 ticks after tick 10; the run leaves 10^9 − 999 × 10^6, which is 0 or more
    let entries = [
        (1, 999_001_000_000_010, 999_001_001_000_010),
        (2, 999_001_001_000_010, 999_001_001_000_011),
    ];
    check_outlook(&rt, &gate, &rows, 0, &entries);
    let last = [(Begin(LAST_TICK), Wait(999_001_000_000_010))];
    follow(&rt, &mut gate, &mut rows, &last);
    check_outlook(&rt, &gate, &rows, 0, &entries);
}

// An import that begins at the last tick is foretold to end after it, and cannot end up to it as declared.
#[test]
fn from_the_last_tick_on(rt: HostRuntime) {
    let mut rows = [SPACED];
    let mut gate = opened(&rt, &mut rows);
    let steps = [
        (File(LAST_TICK, 0, 3, NO_DUE), Filed(1)),
        (File(LAST_TICK, 0, 3, NO_DUE), Filed(2)),
    ];
    follow(&rt, &mut gate, &mut rows, &steps);
    let entries = [
        (1, LAST_TICK, LAST_TICK + 3),
        (2, LAST_TICK + 10, LAST_TICK + 13),
    ];
    check_outlook(&rt, &gate, &rows, 0, &entries);
    let run = [
        (Begin(LAST_TICK), Began(0, 1, 3)),
        (End(LAST_TICK + 3), Denied(TickOutOfRange)),
    ];
    follow(&rt, &mut gate, &mut rows, &run);
}

// Each is denied by the first of the refusals that fit it.
#[test]
fn refusals(rt: HostRuntime) {
    let mut rows = [HALF, SERVER];
    let mut gate = opened(&rt, &mut rows);
    follow(&rt, &mut gate, &mut rows, &FOUR);
    for lab in [2, 63, 64, u64::MAX] {
        check_denied(&rt, &gate, &rows, lab, &mut [BLANK; 4], NoSuchLab);
        check_denied(&rt, &gate, &rows[..1], lab, &mut [BLANK; 4], TableMismatch);
    }
    check_denied(&rt, &gate, &rows[..0], 0, &mut [BLANK; 3], TableMismatch);
    check_denied(&rt, &gate, &[HALF; 3], 0, &mut [BLANK; 3], TableMismatch);
    let begin = [(Begin(6), Began(0, 1, 6))];
    follow(&rt, &mut gate, &mut rows, &begin);
    check_denied(&rt, &gate, &rows[..1], 0, &mut [BLANK; 4], TableMismatch);
    check_denied(&rt, &gate, &rows, 2, &mut [BLANK; 4], NoSuchLab);
    check_denied(&rt, &gate, &rows, 0, &mut [BLANK; 4], LockHeld);
    check_denied(&rt, &gate, &rows, 0, &mut [BLANK; 1], LockHeld);
    check_denied(&rt, &gate, &rows, 1, &mut [BLANK; 4], LockHeld);
}

// A gate that was never opened has no lab to foretell anything of.
#[test]
fn never_opened(rt: HostRuntime) {
    let gate = Gate::new(CircularTurns::new());
    let no_rows: [SpacedRow; 0] = [];
    check_denied(&rt, &gate, &no_rows, 0, &mut [BLANK; 4], NoSuchLab);
    check_denied(&rt, &gate, &[SPACED], 0, &mut [BLANK; 4], TableMismatch);
}
