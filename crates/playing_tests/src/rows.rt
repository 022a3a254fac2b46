// Rows and openings that are refused: the first refusal is printed, and nothing else.
use crate::checks::{Played, check_played};
use playing::play::play;
use std::alloc::{AllocError, Global};
use std::test::Fail;

const ONE_LAB: [Played; 15] = [
    (b"1\n0 0 0\n0\n0\n", "no 2 1\n"),
    (b"1\n1000 0 0\n0\n0\n", "no 2 1\n"),
    (b"1\n1000000000000 0 0\n0\n0\n", "no 2 1\n"),
    (b"1\n0 1000000001 1000000002\n0\n0\n", "no 2 1\n"),
    (b"1\n1000 1000000001 1000000002\n0\n0\n", "no 2 1\n"),
    (b"1\n1 1000000001 0\n0\n0\n", "no 2 2\n"),
    (b"1\n999 1000000000000 1000000000000\n0\n0\n", "no 2 2\n"),
    (b"1\n1 1000000001 1000000002\n0\n0\n", "no 2 2\n"),
    (b"1\n1 0 1\n0\n0\n", "no 2 3\n"),
    (b"1\n1 1000000000 1000000001\n0\n0\n", "no 2 3\n"),
    // the rate is lawful as that of a row, but not as the sum of all
    (b"1\n901 0 0\n0\n0\n", "no 1 5\n"),
    (b"1\n999 1000000000 1000000000\n0\n0\n", "no 1 5\n"),
    (b"1\n999 0 1\n0\n0\n", "no 2 3\n"),
    (b"1\n900 1000000000 1000000000\n0\n0\n", ""),
    (b"1\n1 0 0\n0\n0\n", ""),
];

const TWO_LABS: [Played; 10] = [
    (b"2\n300 0 0\n0 0 0\n0\n0\n", "no 3 1\n"),
    (b"2\n300 0 0\n1000 1000000001 0\n0\n0\n", "no 3 1\n"),
    (b"2\n300 0 0\n300 1000000001 1000000002\n0\n0\n", "no 3 2\n"),
    (b"2\n300 0 0\n300 0 1\n0\n0\n", "no 3 3\n"),
    (b"2\n300 0 1\n0 0 0\n0\n0\n", "no 2 3\n"),
    (b"2\n300 1000000001 0\n0 0 1\n0\n0\n", "no 2 2\n"),
    (b"2\n450 0 0\n451 0 0\n0\n0\n", "no 1 5\n"),
    (b"2\n999 0 0\n999 5 6\n0\n0\n", "no 3 3\n"),
    (b"2\n450 0 0\n450 0 0\n0\n0\n", ""),
    (b"3\n300 0 0\n300 0 1\n0 0 0\n0\n0\n", "no 3 3\n"),
];

// Nothing of what would be refused later is printed.
const NOTHING_ELSE: [Played; 3] = [
    (b"1\n0 0 0\n2\n0 0 3 1000\n0 5 0 0\n1\n0 9\n", "no 2 1\n"),
    (
        b"2\n200 2000 1000\n200 2000 2001\n2\n0 0 3 1000\n0 5 0 0\n1\n0 9\n",
        "no 3 3\n",
    ),
    (
        b"2\n200 2000 1000\n701 2000 1000\n2\n0 0 3 1000\n0 5 0 0\n1\n0 9\n",
        "no 1 5\n",
    ),
];

#[test]
fn of_few_labs(rt: HostRuntime) -> Result<(), Fail> {
    for table in [
        ONE_LAB.as_slice(),
        TWO_LABS.as_slice(),
        NOTHING_ELSE.as_slice(),
    ] {
        check_played(&rt, rt.alloc(), table)?;
    }
    Ok(())
}

// A plan of 64 labs, whose last one stands on line 65 and is the first of these lines.
fn with_64_labs(heap: Global, lines: &str) -> Result<String, AllocError> {
    let mut text = String::new(heap);
    text.push_str("64\n")?;
    for _ in 0..63 {
        text.push_str("14 0 0\n")?;
    }
    text.push_str(lines)?;
    Ok(text)
}

// 63 rates of 14 and one of 18 add up to 900.
#[test]
fn of_as_many_labs_as_may_be(rt: HostRuntime) -> Result<(), Fail> {
    for (lines, printed) in [
        ("0 0 0\n0\n0\n", "no 65 1\n"),
        ("1000 0 0\n0\n0\n", "no 65 1\n"),
        ("18 1000000001 0\n0\n0\n", "no 65 2\n"),
        ("18 5 6\n0\n0\n", "no 65 3\n"),
        ("19 5 6\n0\n0\n", "no 65 3\n"),
        ("19 5 5\n0\n0\n", "no 1 5\n"),
        ("18 5 5\n0\n0\n", ""),
        ("18 0 0\n1\n4 63 2 9\n0\n", "63 1 4 6 2\n"),
        ("18 0 0\n1\n4 64 2 9\n0\n", "no 67 8\n"),
        ("18 0 0\n0\n1\n4 64\n", "no 68 13\n"),
    ] {
        let text = with_64_labs(rt.alloc(), lines)?;
        let found = play(rt.alloc(), text.as_bytes())?;
        assert_eq!(rt; found.as_str(), printed, "of {lines:?}");
    }
    Ok(())
}
