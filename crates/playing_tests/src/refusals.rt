// Filings and withdrawals that are refused, after which the play goes on.
use crate::checks::{Played, check_played};
use playing::play::play;
use std::alloc::{AllocError, Global};
use std::test::Fail;

// Of a filing: 8, 9 and 10. Each of the first lines breaks what would be refused later, too.
const FILINGS: [Played; 12] = [
    (b"1\n300 0 0\n1\n5 1 0 4\n0\n", "no 4 8\n"),
    (b"1\n300 0 0\n1\n5 64 1 5\n0\n", "no 4 8\n"),
    (b"1\n300 0 0\n1\n5 1000000000000 1 5\n0\n", "no 4 8\n"),
    (b"1\n300 0 0\n1\n5 0 0 4\n0\n", "no 4 9\n"),
    (b"1\n300 0 0\n1\n5 0 1000001 4\n0\n", "no 4 9\n"),
    (b"1\n300 0 0\n1\n5 0 1000000000000 5\n0\n", "no 4 9\n"),
    (b"1\n300 0 0\n1\n5 0 1 4\n0\n", "no 4 10\n"),
    (b"1\n300 0 0\n1\n5 0 1 0\n0\n", "no 4 10\n"),
    // the last tick is lawful, and so is the tick of the filing
    (b"1\n300 0 0\n1\n5 0 1 1000000000000\n0\n", "0 1 5 6 1\n"),
    (b"1\n300 0 0\n1\n5 0 1 5\n0\n", "0 1 5 6 1\n"),
    (
        b"1\n300 0 0\n1\n0 0 1000000 0\n0\n",
        "0 1 0 1000000 1000000\n",
    ),
    // What is refused is given no number. Lab 1 is the last of two.
    (
        b"2\n300 0 0\n300 0 0\n4\n5 2 1 5\n5 1 0 5\n5 1 2 4\n5 1 2 5\n0\n",
        "no 5 8\nno 6 9\nno 7 10\n1 1 5 7 2\n",
    ),
];

const WITHDRAWALS: [Played; 4] = [
    (
        b"1\n300 0 0\n1\n5 0 2 9\n4\n5 0\n5 1\n5 2\n5 1000000000000\n",
        "no 6 13\nno 7 13\nno 8 13\nno 9 13\n0 1 5 7 2\n",
    ),
    // Ticket 1 runs from 0 to 2, and ticket 2, on the same lab, from 7.
    (
        b"1\n300 0 0\n2\n0 0 2 9\n0 0 2 9\n3\n1 1\n3 1\n6 2\n",
        "no 7 13\n0 1 0 2 2\nno 8 13\n",
    ),
    (
        b"1\n300 0 0\n2\n0 0 2 9\n0 0 2 9\n3\n8 2\n9 2\n6 3\n",
        "0 1 0 2 2\nno 9 13\nno 7 13\n0 2 7 9 9\nno 8 13\n",
    ),
    // What is refused and what was withdrawn are never there again.
    (
        b"1\n300 0 0\n3\n0 0 2 9\n1 1 1 9\n1 0 1 9\n3\n2 2\n3 2\n4 3\n",
        "no 5 8\n0 1 0 2 2\nno 9 13\nno 10 13\n",
    ),
];

#[test]
fn of_one_line(rt: HostRuntime) -> Result<(), Fail> {
    check_played(&rt, rt.alloc(), &FILINGS)?;
    check_played(&rt, rt.alloc(), &WITHDRAWALS)
}

// Late filings of one lab, on lines 5 to 21, whose first import holds the lock past the last tick; and other lines.
fn crowded(heap: Global, others: &str) -> Result<String, AllocError> {
    let mut text = String::new(heap);
    text.push_str("2\n300 0 0\n300 0 0\n23\n")?;
    for _ in 0..17 {
        text.push_str("999999999000 0 1000000 1000000000000\n")?;
    }
    text.push_str(others)?;
    Ok(text)
}

// Ticket 1 begins once all that is asked for at its tick was filed, and then no more waits: so the 17th of these filings, on line 21, is
// refused, and line 23, at the tick after, is granted; it has number 18, as the other lab's on line 22 has 17. Its withdrawal makes room for
// line 26. Line 25 is refused for its due tick before it is asked whether there is room.
#[test]
fn of_a_full_queue(rt: HostRuntime) -> Result<(), Fail> {
    let text = crowded(
        rt.alloc(),
        "999999999000 1 1 1000000000000\n\
         999999999001 0 1 1000000000000\n\
         999999999001 0 1 1000000000000\n\
         999999999001 0 1 999999999000\n\
         999999999002 0 1 1000000000000\n\
         999999999002 0 1 1000000000000\n\
         1\n999999999002 18\n",
    )?;
    let found = play(rt.alloc(), text.as_bytes())?;
    assert_eq!(rt; found.as_str(), "no 21 11\nno 24 11\nno 25 10\nno 27 11\n");
    Ok(())
}
