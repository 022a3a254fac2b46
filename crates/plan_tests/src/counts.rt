// How many lines a section may have, and has.
use crate::checks::{Broken, check_broken};

const OUT_OF_RANGE: [Broken; 13] = [
    (b"0\n0\n0\n", 1, 1),
    (b"0\n", 1, 1),
    (b"65\n5 6 7\n8 9 10\n1\n11 1 12 13\n1\n14 1\n", 1, 1),
    (b"66\n", 1, 1),
    (b"1000000000000\n0 0 0\n0\n0\n", 1, 1),
    (b"1\n0 0 0\n1025\n0\n", 3, 1),
    (b"2\n5 6 7\n8 9 10\n1025\n11 1 12 13\n1\n14 1\n", 4, 1),
    (b"1\n0 0 0\n1000000000000\n0\n", 3, 1),
    (b"1\n0 0 0\n0\n257\n", 4, 1),
    (b"2\n5 6 7\n8 9 10\n1\n11 1 12 13\n257\n14 1\n", 6, 1),
    (b"1\n0 0 0\n0\n1024\n", 4, 1),
    (b"1\n0 0 0\n0\n1000000000000\n", 4, 1),
    (b"1\n0 0 0\n0\n18446744073709551616\n", 4, 1),
];

// The greatest counts, with too few lines after.
const GREATEST: [Broken; 9] = [
    (b"64\n", 2, 1),
    (b"64\n5 6 7\n", 3, 1),
    (b"64\n5 6 7\n8 9 10\n1\n11 1 12 13\n1\n14 1\n", 4, 2),
    (b"1\n0 0 0\n1024\n", 4, 1),
    (b"1\n0 0 0\n1024\n0\n", 4, 2),
    (b"1\n0 0 0\n1024\n1 0 1 1\n2 0 1 2\n3 0 1 3\n", 7, 1),
    (b"1\n0 0 0\n0\n256\n", 5, 1),
    (b"1\n0 0 0\n0\n256\n0 0\n0 1\n", 7, 1),
    (b"1\n0 0 0\n0\n256\n0 0\n0\n", 6, 2),
];

// Counts other than of the lines that follow. What the lines are then read as shows the break: the count of another section, or a line of
// the same.
const NOT_OF_THE_LINES: [Broken; 10] = [
    (b"1\n5 6 7\n8 9 10\n1\n11 1 12 13\n1\n14 1\n", 3, 2),
    (b"1\n5 6 7\n1025 9 10\n1\n11 1 12 13\n1\n14 1\n", 3, 1),
    (b"3\n5 6 7\n8 9 10\n1\n11 1 12 13\n1\n14 1\n", 4, 2),
    (b"4\n5 6 7\n8 9 10\n1\n11 1 12 13\n1\n14 1\n", 4, 2),
    (b"2\n5 6 7\n8 9 10\n0\n11 1 12 13\n1\n14 1\n", 5, 2),
    (b"2\n5 6 7\n8 9 10\n0\n257 1 12 13\n1\n14 1\n", 5, 1),
    (b"2\n5 6 7\n8 9 10\n2\n11 1 12 13\n1\n14 1\n", 6, 2),
    (b"2\n5 6 7\n8 9 10\n1\n11 1 12 13\n0\n14 1\n", 7, 1),
    (b"2\n5 6 7\n8 9 10\n1\n11 1 12 13\n2\n14 1\n", 8, 1),
    (b"2\n5 6 7\n8 9 10\n1\n11 1 12 13\n256\n14 1\n", 8, 1),
];

// A count out of its range comes before a surplus field.
const OUT_OF_RANGE_WITH_SURPLUS: [Broken; 7] = [
    (b"0 1\n0 0 0\n0\n0\n", 1, 1),
    (b"65 1\n0 0 0\n0\n0\n", 1, 1),
    (b"65 \n0 0 0\n0\n0\n", 1, 1),
    (b"1 65\n0 0 0\n0\n0\n", 1, 2),
    (b"1\n0 0 0\n1025 0\n0\n", 3, 1),
    (b"1\n0 0 0\n0\n257 \n", 4, 1),
    (b"1\n0 0 0\n0\n257", 4, 1),
];

#[test]
fn broken_counts(rt: HostRuntime) {
    for table in [
        OUT_OF_RANGE.as_slice(),
        GREATEST.as_slice(),
        NOT_OF_THE_LINES.as_slice(),
        OUT_OF_RANGE_WITH_SURPLUS.as_slice(),
    ] {
        check_broken(&rt, rt.alloc(), table);
    }
}
