// What happens at one tick: first an end, then withdrawals, then filings, and at last a begin.
use crate::checks::{Played, check_played};
use std::test::Fail;

// The row of most of these is able at tick 5, where the import begins that is filed at 0, and ends at 8.
const WITHDRAWALS: [Played; 8] = [
    (b"1\n200 2000 1000\n1\n0 0 3 9\n1\n4 1\n", ""),
    // before the begin of that tick
    (b"1\n200 2000 1000\n1\n0 0 3 9\n1\n5 1\n", ""),
    (
        b"1\n200 2000 1000\n1\n0 0 3 9\n1\n6 1\n",
        "no 6 13\n0 1 5 8 8\n",
    ),
    // after the end of that tick
    (
        b"1\n200 2000 1000\n1\n0 0 3 9\n1\n8 1\n",
        "0 1 5 8 8\nno 6 13\n",
    ),
    // before the filing of that tick
    (
        b"1\n200 2000 1000\n1\n0 0 3 9\n1\n0 1\n",
        "no 6 13\n0 1 5 8 8\n",
    ),
    (
        b"1\n200 2000 1000\n1\n6 0 1 9\n1\n6 1\n",
        "no 6 13\n0 1 6 7 1\n",
    ),
    // The first of two is granted.
    (b"1\n200 2000 1000\n1\n0 0 3 9\n2\n5 1\n5 1\n", "no 7 13\n"),
    // Line 4 is withdrawn at the tick of line 5, and that is what begins.
    (
        b"1\n200 2000 1000\n2\n0 0 3 9\n5 0 2 9\n1\n5 1\n",
        "0 2 5 7 2\n",
    ),
];

const FILINGS: [Played; 5] = [
    // What is filed at the tick at which another lab ends begins at that tick.
    (
        b"2\n300 0 0\n300 0 0\n2\n0 0 3 9\n3 1 1 9\n0\n",
        "0 1 0 3 3\n1 2 3 4 1\n",
    ),
    // The same of one lab: a run of 2 ticks leaves 2800 of 4000.
    (
        b"1\n400 4000 0\n2\n10 0 2 99\n12 0 1 99\n0\n",
        "0 1 10 12 2\n0 2 12 13 1\n",
    ),
    // Both labs file before one begins, and lab 0 is the first, although its line comes later.
    (
        b"2\n300 0 0\n300 0 0\n2\n2 1 1 9\n2 0 1 9\n0\n",
        "0 2 2 3 1\n1 1 3 4 2\n",
    ),
    // At tick 3 lab 0 files before the begin, but has -2100, and 7 ticks to wait.
    (
        b"2\n300 0 0\n300 0 0\n3\n0 0 3 9\n3 0 1 9\n3 1 2 9\n0\n",
        "0 1 0 3 3\n1 3 3 5 2\n0 2 10 11 8\n",
    ),
    // Line 6 files ticket 1, whose run from 400 leaves -200; at its end lines 4 and 5 file tickets 2 and 3. From 200 at 3 a run of 2 ticks leaves
    // -1000, from which 1000 are 3 ticks, rounded up.
    (
        b"1\n400 4000 0\n3\n2 0 2 9\n2 0 1 9\n1 0 1 9\n0\n",
        "0 1 1 2 1\n0 2 3 5 3\n0 3 8 9 7\n",
    ),
];

// At tick 3 lab 0 ends; tickets 2, 3 and 1 are asked back, of which 2 waits, 3 is filed only then, and 1 has ended; tickets 3 and 4 are filed;
// and lab 1 begins, as lab 0 has -2100 and is able at 10.
const ALL_FOUR: [Played; 2] = [
    (
        b"2\n300 0 0\n400 4000 0\n4\n0 0 3 9\n1 1 1 9\n3 1 2 9\n3 0 1 9\n3\n3 2\n3 3\n3 1\n",
        "0 1 0 3 3\nno 11 13\nno 12 13\n1 3 3 5 2\n0 4 10 11 8\n",
    ),
    // The same tick with refusals: line 11 is of a ticket never given, line 7 of a lab that does not exist. What comes last is the end of what
    // begins at that tick.
    (
        b"2\n300 0 0\n400 4000 0\n4\n0 0 3 9\n1 1 1 9\n3 2 1 9\n3 1 2 9\n2\n3 2\n3 9\n",
        "0 1 0 3 3\nno 11 13\nno 7 8\n1 3 3 5 2\n",
    ),
];

#[test]
fn at_one_tick(rt: HostRuntime) -> Result<(), Fail> {
    for table in [
        WITHDRAWALS.as_slice(),
        FILINGS.as_slice(),
        ALL_FOUR.as_slice(),
    ] {
        check_played(&rt, rt.alloc(), table)?;
    }
    Ok(())
}
