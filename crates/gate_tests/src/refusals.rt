use crate::rows::SPACED;
use crate::steps::Answer::{Began, Denied, Ended, Filed};
use crate::steps::Call::{Begin, End, File, Withdraw};
use crate::steps::{Answer, Call, NO_DUE, fill, follow, opened};
use gate::gate::Gate;
use measures::limits::LAST_TICK;
use measures::refusal::Refusal::{
    DueOutOfRange, LengthOutOfRange, LockFree, LockHeld, NoSuchLab, NoSuchTicket, QueueFull,
    TableMismatch, TickOutOfRange,
};
use spaced::SpacedRow;
use std::process::Abort;
use turns::circular::CircularTurns;

// At tick 10 lab 1 has as many tickets as may wait, and lab 0 has that with number 17.
fn crowded(rt: &impl Abort, rows: &mut [SpacedRow; 2]) -> Gate<CircularTurns> {
    let mut gate = opened(rt, rows);
    fill(rt, &mut gate, rows, 10, 1);
    follow(rt, &mut gate, rows, &[(File(10, 0, 1, NO_DUE), Filed(17))]);
    gate
}

// The last call of each refusal is one that the next refusal would deny as well. TicketsExhausted is left out: no test can file
// 1,000,000,000,000 imports before it.
const FILINGS: [(Call, Answer); 21] = [
    (File(9, 0, 1, 20), Denied(TickOutOfRange)),
    (File(0, 0, 1, 20), Denied(TickOutOfRange)),
    (File(LAST_TICK + 1, 0, 1, 0), Denied(TickOutOfRange)),
    (File(u64::MAX, 2, 0, 0), Denied(TickOutOfRange)),
    (File(9, 2, 1, 20), Denied(TickOutOfRange)),
    (File(10, 2, 1, 20), Denied(NoSuchLab)),
    (File(10, 63, 1, 20), Denied(NoSuchLab)),
    (File(10, 64, 1, 20), Denied(NoSuchLab)),
    (File(10, u64::MAX, 1, 20), Denied(NoSuchLab)),
    (File(10, 2, 0, 20), Denied(NoSuchLab)),
    (File(10, 0, 0, 20), Denied(LengthOutOfRange)),
    (File(10, 0, 1_000_001, 20), Denied(LengthOutOfRange)),
    (File(10, 0, u64::MAX, 20), Denied(LengthOutOfRange)),
    (File(10, 0, 0, 9), Denied(LengthOutOfRange)),
    (File(10, 0, 1, 9), Denied(DueOutOfRange)),
    (File(10, 0, 1, LAST_TICK + 1), Denied(DueOutOfRange)),
    (File(10, 0, 1, u64::MAX), Denied(DueOutOfRange)),
    (File(10, 1, 1, 9), Denied(DueOutOfRange)),
    (File(10, 1, 1, 20), Denied(QueueFull)),
    (File(10, 0, 1, 10), Filed(18)),
    (File(LAST_TICK, 0, 1_000_000, NO_DUE), Filed(19)),
];

// The other calls while the lock is free. The last one takes it.
const WHILE_FREE: [(Call, Answer); 16] = [
    (Withdraw(9, 17), Denied(TickOutOfRange)),
    (Withdraw(LAST_TICK + 1, 17), Denied(TickOutOfRange)),
    (Withdraw(u64::MAX, u64::MAX), Denied(TickOutOfRange)),
    (Withdraw(9, 18), Denied(TickOutOfRange)),
    (Withdraw(10, 18), Denied(NoSuchTicket)),
    (Withdraw(10, 0), Denied(NoSuchTicket)),
    (Withdraw(LAST_TICK, u64::MAX), Denied(NoSuchTicket)),
    (End(LAST_TICK + 1), Denied(TickOutOfRange)),
    (End(u64::MAX), Denied(TickOutOfRange)),
    (End(9), Denied(TickOutOfRange)),
    (End(10), Denied(LockFree)),
    (End(LAST_TICK), Denied(LockFree)),
    (Begin(9), Denied(TickOutOfRange)),
    (Begin(LAST_TICK + 1), Denied(TickOutOfRange)),
    (Begin(u64::MAX), Denied(TickOutOfRange)),
    (Begin(10), Began(0, 17, 1)),
];

// After that, while the lock is held. The last one frees it.
const WHILE_HELD: [(Call, Answer); 9] = [
    (Begin(LAST_TICK + 1), Denied(TickOutOfRange)),
    (Begin(9), Denied(TickOutOfRange)),
    (Begin(10), Denied(LockHeld)),
    (Begin(LAST_TICK), Denied(LockHeld)),
    (Withdraw(10, 17), Denied(NoSuchTicket)),
    (End(9), Denied(TickOutOfRange)),
    (End(LAST_TICK + 1), Denied(TickOutOfRange)),
    (End(u64::MAX), Denied(TickOutOfRange)),
    (End(12), Ended(17, 2, 2)),
];

// On a table with another number of rows; each call also with a tick out of range.
const ON_ANOTHER_TABLE: [(Call, Answer); 8] = [
    (File(10, 0, 1, NO_DUE), Denied(TableMismatch)),
    (File(9, 2, 0, 9), Denied(TableMismatch)),
    (Withdraw(10, 17), Denied(TableMismatch)),
    (Withdraw(u64::MAX, 0), Denied(TableMismatch)),
    (Begin(10), Denied(TableMismatch)),
    (Begin(9), Denied(TableMismatch)),
    (End(10), Denied(TableMismatch)),
    (End(LAST_TICK + 1), Denied(TableMismatch)),
];

#[test]
fn of_a_filing(rt: HostRuntime) {
    let mut rows = [SPACED; 2];
    let mut gate = crowded(&rt, &mut rows);
    follow(&rt, &mut gate, &mut [SPACED; 3], &ON_ANOTHER_TABLE);
    follow(&rt, &mut gate, &mut rows, &FILINGS);
}

#[test]
fn of_the_other_calls(rt: HostRuntime) {
    let mut rows = [SPACED; 2];
    let mut gate = crowded(&rt, &mut rows);
    follow(&rt, &mut gate, &mut [SPACED; 3], &ON_ANOTHER_TABLE);
    follow(&rt, &mut gate, &mut rows, &WHILE_FREE);
    follow(&rt, &mut gate, &mut [SPACED; 3], &ON_ANOTHER_TABLE);
    follow(&rt, &mut gate, &mut rows, &WHILE_HELD);
}
