// What happens at the last tick, 1,000,000,000,000, and does not happen after it.
use crate::checks::{Played, check_played};
use std::test::Fail;

const RUNS: [Played; 5] = [
    // ends at the last tick
    (
        b"1\n300 0 0\n1\n999999999999 0 1 1000000000000\n0\n",
        "0 1 999999999999 1000000000000 1\n",
    ),
    (
        b"1\n300 0 0\n1\n999999000000 0 1000000 999999000000\n0\n",
        "0 1 999999000000 1000000000000 1000000\n",
    ),
    // would end one tick after it
    (b"1\n300 0 0\n1\n999999999999 0 2 1000000000000\n0\n", ""),
    (
        b"1\n300 0 0\n1\n999999000001 0 1000000 1000000000000\n0\n",
        "",
    ),
    // begins at it
    (b"1\n300 0 0\n1\n1000000000000 0 1 1000000000000\n0\n", ""),
];

// A run of 2 ticks leaves -1400, from which a lab is able 5 ticks after its end.
const WAITS: [Played; 4] = [
    // until one tick before the last
    (
        b"1\n300 0 0\n2\n999999999992 0 2 1000000000000\n999999999992 0 1 1000000000000\n0\n",
        "0 1 999999999992 999999999994 2\n0 2 999999999999 1000000000000 8\n",
    ),
    // until the last
    (
        b"1\n300 0 0\n2\n999999999993 0 2 1000000000000\n999999999993 0 1 1000000000000\n0\n",
        "0 1 999999999993 999999999995 2\n",
    ),
    // past it; so ticket 2 still waits at the last tick, and line 7 withdraws it before line 8 would
    (
        b"1\n300 0 0\n2\n999999999994 0 2 1000000000000\n999999999994 0 1 1000000000000\n\
          2\n1000000000000 2\n1000000000000 2\n",
        "0 1 999999999994 999999999996 2\nno 8 13\n",
    ),
    // A run of 1,000,000 ticks at rate 1 leaves -999,000,000, from which 999,000,000 are as many ticks. It ends 998,999,999 ticks before the
    // last.
    (
        b"1\n1 0 0\n2\n999000000001 0 1000000 1000000000000\n999000000001 0 1 1000000000000\n0\n",
        "0 1 999000000001 999001000001 1000000\n",
    ),
];

// What a plan asks for at the last tick itself.
const ASKED: [Played; 5] = [
    // line 6 comes before the filing of that tick
    (
        b"1\n300 0 0\n1\n1000000000000 0 1 1000000000000\n1\n1000000000000 1\n",
        "no 6 13\n",
    ),
    // and after the end
    (
        b"1\n300 0 0\n1\n999999999999 0 1 1000000000000\n1\n1000000000000 1\n",
        "0 1 999999999999 1000000000000 1\nno 6 13\n",
    ),
    // an import that runs and does not end
    (
        b"1\n300 0 0\n1\n999999999999 0 2 1000000000000\n1\n1000000000000 1\n",
        "no 6 13\n",
    ),
    (
        b"1\n300 0 0\n3\n1000000000000 1 1 0\n1000000000000 0 0 0\n1000000000000 0 1 999999999999\n0\n",
        "no 4 8\nno 5 9\nno 6 10\n",
    ),
    // an end, a withdrawal, filings and a begin, which has no end
    (
        b"2\n300 0 0\n300 0 0\n4\n999999999997 0 3 1000000000000\n999999999998 1 1 1000000000000\n\
          1000000000000 1 1 1000000000000\n1000000000000 2 1 1000000000000\n\
          3\n1000000000000 2\n1000000000000 1\n1000000000000 3\n",
        "0 1 999999999997 1000000000000 3\nno 11 13\nno 12 13\nno 8 8\n",
    ),
];

#[test]
fn up_to_the_last_tick(rt: HostRuntime) -> Result<(), Fail> {
    for table in [RUNS.as_slice(), WAITS.as_slice(), ASKED.as_slice()] {
        check_played(&rt, rt.alloc(), table)?;
    }
    Ok(())
}
