// Lines that are missing, doubled or empty, and sections that are.
use crate::checks::{Broken, check_broken};

const MISSING_LINES: [Broken; 9] = [
    (b"5 6 7\n8 9 10\n1\n11 1 12 13\n1\n14 1\n", 1, 2),
    (b"2\n5 6 7\n1\n11 1 12 13\n1\n14 1\n", 3, 2),
    (b"2\n5 6 7\n8 9 10\n11 1 12 13\n1\n14 1\n", 4, 2),
    (b"2\n5 6 7\n8 9 10\n1\n1\n14 1\n", 5, 2),
    (b"2\n5 6 7\n8 9 10\n1\n11 1 12 13\n14 1\n", 6, 2),
    (b"2\n5 6 7\n8 9 10\n1\n11 1 12 13\n1\n", 7, 1),
    (b"2\n1\n11 1 12 13\n1\n14 1\n", 2, 2),
    (b"2\n5 6 7\n8 9 10\n1\n14 1\n", 5, 3),
    (b"1\n11 1 12 13\n1\n14 1\n", 2, 4),
];

const SURPLUS_LINES: [Broken; 8] = [
    (b"2\n2\n5 6 7\n8 9 10\n1\n11 1 12 13\n1\n14 1\n", 2, 2),
    (b"2\n5 6 7\n5 6 7\n8 9 10\n1\n11 1 12 13\n1\n14 1\n", 4, 2),
    (b"2\n5 6 7\n8 9 10\n1\n1\n11 1 12 13\n1\n14 1\n", 5, 2),
    (b"1\n0 0 0\n1\n11 1 12 13\n11 1 12 13\n1\n14 1\n", 5, 2),
    (b"2\n5 6 7\n8 9 10\n1\n11 1 12 13\n1\n1\n14 1\n", 7, 2),
    (b"2\n5 6 7\n8 9 10\n1\n11 1 12 13\n1\n14 1\n14 1\n", 8, 1),
    (b"2\n5 6 7\n8 9 10\n1\n14 1\n1\n11 1 12 13\n", 5, 3),
    (b"1\n11 1 12 13\n2\n5 6 7\n8 9 10\n1\n14 1\n", 2, 4),
];

const EMPTY_LINES: [Broken; 7] = [
    (b"\n2\n5 6 7\n8 9 10\n1\n11 1 12 13\n1\n14 1\n", 1, 1),
    (b"2\n\n5 6 7\n8 9 10\n1\n11 1 12 13\n1\n14 1\n", 2, 1),
    (b"2\n5 6 7\n\n8 9 10\n1\n11 1 12 13\n1\n14 1\n", 3, 1),
    (b"2\n5 6 7\n8 9 10\n\n1\n11 1 12 13\n1\n14 1\n", 4, 1),
    (b"2\n5 6 7\n8 9 10\n1\n\n11 1 12 13\n1\n14 1\n", 5, 1),
    (b"2\n5 6 7\n8 9 10\n1\n11 1 12 13\n\n1\n14 1\n", 6, 1),
    (b"2\n5 6 7\n8 9 10\n1\n11 1 12 13\n1\n\n14 1\n", 7, 1),
];

#[test]
fn broken_lines(rt: HostRuntime) {
    for table in [
        MISSING_LINES.as_slice(),
        SURPLUS_LINES.as_slice(),
        EMPTY_LINES.as_slice(),
    ] {
        check_broken(&rt, rt.alloc(), table);
    }
}
