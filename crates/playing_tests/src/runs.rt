// Runs that come one after another.
use crate::checks::{Played, check_played};
use std::test::Fail;

const ONE_LAB: [Played; 8] = [
    // Able at 5 with 1000. A run of 3 ticks leaves -1400, from which 2400 are 12 ticks, so the next starts at 20.
    (
        b"1\n200 2000 1000\n2\n0 0 3 1000\n0 0 1 1000\n0\n",
        "0 1 5 8 8\n0 2 20 21 21\n",
    ),
    // A run of 2 ticks from 1600 leaves 0, and the row is still able.
    (
        b"1\n200 2000 1000\n2\n8 0 2 9\n8 0 1 9\n0\n",
        "0 1 8 10 2\n0 2 10 11 3\n",
    ),
    // From 1400 it leaves -200, and 1200 are 6 ticks.
    (
        b"1\n200 2000 1000\n2\n7 0 2 9\n7 0 1 9\n0\n",
        "0 1 7 9 2\n0 2 15 16 9\n",
    ),
    // The threshold of 1000 is missing for 3.33 ticks, so the first starts at 4, from 1200. It leaves 500 and the next -200, from which 1200
    // are 4 ticks.
    (
        b"1\n300 2000 1000\n3\n0 0 1 9\n0 0 1 9\n0 0 1 9\n0\n",
        "0 1 4 5 5\n0 2 5 6 6\n0 3 10 11 11\n",
    ),
    // Able at 6 with 3000. Runs of 6 and 1 ticks leave 0 and -500, from which 3500 are 7 ticks; those of 5 and 1 ticks leave 500 and 0.
    (
        b"1\n500 3000 3000\n4\n0 0 6 99\n0 0 1 99\n0 0 5 99\n0 0 1 99\n0\n",
        "0 1 6 12 12\n0 2 12 13 13\n0 3 20 25 25\n0 4 25 26 26\n",
    ),
    // Without the second, the run of 5 ticks leaves -2500, from which 5500 are 11 ticks.
    (
        b"1\n500 3000 3000\n4\n0 0 6 99\n0 0 1 99\n0 0 5 99\n0 0 1 99\n1\n3 2\n",
        "0 1 6 12 12\n0 3 12 17 17\n0 4 28 29 29\n",
    ),
    // In the order of arrival, though the second is shorter and due sooner.
    (
        b"1\n400 4000 0\n2\n10 0 2 99\n10 0 1 12\n0\n",
        "0 1 10 12 2\n0 2 12 13 3\n",
    ),
    // The greatest terms and lengths. Able at the tick 1,000,000,000 with as much. A run of 1,000,000 ticks takes 999,000,000: it leaves
    // 1,000,000 and the next -998,000,000, from which 1,998,000,000 are as many ticks.
    (
        b"1\n1 1000000000 1000000000\n3\n0 0 1000000 9\n0 0 1000000 9\n0 0 1000000 9\n0\n",
        "0 1 1000000000 1001000000 1001000000\n0 2 1001000000 1002000000 1002000000\n0 3 3000000000 3001000000 3001000000\n",
    ),
];

const TURNS: [Played; 4] = [
    // Two labs of 4000 that pay 600 for a tick begin by turns. Lab 0 is the first of all, whoever filed first.
    (
        b"2\n400 4000 0\n400 4000 0\n6\n10 1 1 99\n10 1 1 99\n10 1 1 99\n10 0 1 99\n10 0 1 99\n10 0 1 99\n0\n",
        "0 4 10 11 1\n1 1 11 12 2\n0 5 12 13 3\n1 2 13 14 4\n0 6 14 15 5\n1 3 15 16 6\n",
    ),
    // After lab 1 was served, lab 2 comes before lab 0.
    (
        b"3\n300 4000 0\n300 4000 0\n300 4000 0\n3\n10 1 2 99\n11 0 1 99\n11 2 1 99\n0\n",
        "1 1 10 12 2\n2 3 12 13 2\n0 2 13 14 3\n",
    ),
    // After lab 2 was served, lab 0 comes before lab 1, although only lab 1 had no turn yet.
    (
        b"3\n300 4000 0\n300 4000 0\n300 4000 0\n4\n10 0 1 99\n10 2 1 99\n12 0 1 99\n12 1 1 99\n0\n",
        "0 1 10 11 1\n2 2 11 12 2\n0 3 12 13 1\n1 4 13 14 2\n",
    ),
    // Lab 0 is able at 5, and lab 1 at once. Lab 0 is passed over at 0, and lab 1 after its run, until 1400 / 300 rounded up are over.
    (
        b"2\n200 2000 1000\n300 0 0\n4\n0 0 3 9\n0 0 1 9\n0 1 2 9\n0 1 2 9\n0\n",
        "1 3 0 2 2\n0 1 5 8 8\n1 4 8 10 10\n0 2 20 21 21\n",
    ),
];

// Three labs, of which 0 is able at 5 and the others at 0:
// 1 runs from 0 to 2 and has -1400, from which it is able at 7;
// 2 runs from 2, with 800, to 6 and has -1600, from which it is able at 10;
// 0 runs from 6, with 1200, to 9 and has -1200, from which 2200 to the threshold are 11 ticks;
// 1 runs from 9 to 10 and has -700, from which it is able at 13;
// 2 runs from 12, when it files, with 800, to 14 and has -400, from which it is able at 15;
// its ticket 7 is withdrawn at 15;
// 0 runs from 20.
// Lines 9, 11 and 12 ask for lab 3, for 0 ticks, and for what is due before it is filed. Of the withdrawals on lines 17 to 21 those are refused
// that name the import that runs, tickets 9 and 2, of which one was never given and one has ended at that tick, and ticket 7 a second time.
const THREE_LABS: Played = (
    b"3\n200 2000 1000\n300 0 0\n400 4000 0\n\
      10\n0 0 3 100\n0 1 2 100\n0 2 4 100\n0 3 1 100\n1 1 1 100\n1 2 0 100\n4 2 1 3\n6 0 1 100\n12 2 2 100\n13 2 5 100\n\
      5\n8 1\n8 9\n2 2\n15 7\n16 7\n",
    "no 9 8\nno 11 9\n1 2 0 2 2\nno 19 13\nno 12 10\n2 3 2 6 6\nno 17 13\nno 18 13\n0 1 6 9 9\n1 4 9 10 9\n2 6 12 14 2\nno 21 13\n\
     0 5 20 21 15\n",
);

// Plans whose lines are not in the order of their ticks. Tickets are numbered in the order in which they are given.
const OTHER_ORDERS: [Played; 2] = [
    // Lines 5, 7, 4 and 6 file tickets 1, 2, 3 and 4. Ticket 1 leaves -600, 2 leaves 0 and 3 leaves 1000. Each withdrawal is of a ticket that
    // is still to come or was there.
    (
        b"1\n400 4000 0\n4\n9 0 1 99\n0 0 1 99\n9 0 2 99\n4 0 1 99\n3\n9 2\n4 3\n0 1\n",
        "no 11 13\n0 1 0 1 1\nno 10 13\n0 2 4 5 1\nno 9 13\n0 3 9 10 1\n0 4 10 12 3\n",
    ),
    // Line 5 files ticket 1, which line 9 withdraws before lines 8 and 7 would.
    (
        b"1\n200 2000 1000\n2\n3 0 2 9\n1 0 1 9\n3\n4 1\n3 1\n2 1\n",
        "no 8 13\nno 7 13\n0 2 5 7 4\n",
    ),
];

// Nothing is filed, or nothing stays.
const NOTHING_TO_DO: [Played; 4] = [
    (b"1\n200 2000 1000\n0\n0\n", ""),
    (b"3\n300 0 0\n300 1000000000 1000000000\n1 0 0\n0\n0\n", ""),
    (b"1\n200 2000 1000\n2\n0 0 3 9\n4 0 1 9\n2\n5 1\n5 2\n", ""),
    (b"1\n200 2000 1000\n0\n2\n7 1\n0 0\n", "no 6 13\nno 5 13\n"),
];

#[test]
fn one_after_another(rt: HostRuntime) -> Result<(), Fail> {
    for table in [
        ONE_LAB.as_slice(),
        TURNS.as_slice(),
        [THREE_LABS].as_slice(),
        OTHER_ORDERS.as_slice(),
        NOTHING_TO_DO.as_slice(),
    ] {
        check_played(&rt, rt.alloc(), table)?;
    }
    Ok(())
}
