// Line feeds that are missing, or stand where none should, and other ends of a line.
use crate::checks::{Broken, check_broken};

const NEARLY_NOTHING: [Broken; 9] = [
    (b"", 1, 1),
    (b"\n", 1, 1),
    (b"\n\n\n", 1, 1),
    (b" ", 1, 1),
    (b" \n", 1, 1),
    (b"\r\n", 1, 1),
    (b"\0", 1, 1),
    (b"0", 1, 1),
    (b"1 ", 1, 2),
];

// Bytes that end too soon.
const CUT_OFF: [Broken; 22] = [
    (b"2", 1, 1),
    (b"2\n", 2, 1),
    (b"2\n5", 2, 2),
    (b"2\n5 ", 2, 2),
    (b"2\n5 6", 2, 3),
    (b"2\n5 6 ", 2, 3),
    (b"2\n5 6 7", 2, 3),
    (b"2\n5 6 7\n", 3, 1),
    (b"2\n5 6 7\n8 9 10", 3, 3),
    (b"2\n5 6 7\n8 9 10\n", 4, 1),
    (b"2\n5 6 7\n8 9 10\n1", 4, 1),
    (b"2\n5 6 7\n8 9 10\n1\n", 5, 1),
    (b"2\n5 6 7\n8 9 10\n1\n11 1", 5, 3),
    (b"2\n5 6 7\n8 9 10\n1\n11 1 12", 5, 4),
    (b"2\n5 6 7\n8 9 10\n1\n11 1 12 13", 5, 4),
    (b"2\n5 6 7\n8 9 10\n1\n11 1 12 13\n", 6, 1),
    (b"2\n5 6 7\n8 9 10\n1\n11 1 12 13\n1", 6, 1),
    (b"2\n5 6 7\n8 9 10\n1\n11 1 12 13\n1\n", 7, 1),
    (b"2\n5 6 7\n8 9 10\n1\n11 1 12 13\n1\n14", 7, 2),
    (b"2\n5 6 7\n8 9 10\n1\n11 1 12 13\n1\n14 1", 7, 2),
    (b"1\n0 0 0\n0", 3, 1),
    (b"1\n0 0 0\n0\n0", 4, 1),
];

// Nothing may come after the last line.
const GOES_ON: [Broken; 11] = [
    (b"1\n0 0 0\n0\n0\n\n", 5, 1),
    (b"1\n0 0 0\n0\n0\n0\n", 5, 1),
    (b"2\n5 6 7\n8 9 10\n1\n11 1 12 13\n1\n14 1\n\n", 8, 1),
    (b"2\n5 6 7\n8 9 10\n1\n11 1 12 13\n1\n14 1\n\n\n", 8, 1),
    (b"2\n5 6 7\n8 9 10\n1\n11 1 12 13\n1\n14 1\n ", 8, 1),
    (b"2\n5 6 7\n8 9 10\n1\n11 1 12 13\n1\n14 1\n0", 8, 1),
    (b"2\n5 6 7\n8 9 10\n1\n11 1 12 13\n1\n14 1\n0 0\n", 8, 1),
    (b"2\n5 6 7\n8 9 10\n1\n11 1 12 13\n1\n14 1\nx", 8, 1),
    (b"2\n5 6 7\n8 9 10\n1\n11 1 12 13\n1\n14 1\n\r\n", 8, 1),
    (b"2\n5 6 7\n8 9 10\n1\n11 1 12 13\n1\n14 1\n\0", 8, 1),
    (b"1\n0 0 0\n0\n0\n1\n0 0 0\n0\n0\n", 5, 1),
];

const CARRIAGE_RETURNS: [Broken; 11] = [
    (b"1\r\n0 0 0\r\n0\r\n0\r\n", 1, 1),
    (b"2\r5 6 7\r8 9 10\r1\r11 1 12 13\r1\r14 1\r", 1, 1),
    (b"2\r\n5 6 7\n8 9 10\n1\n11 1 12 13\n1\n14 1\n", 1, 1),
    (b"2\n\r5 6 7\n8 9 10\n1\n11 1 12 13\n1\n14 1\n", 2, 1),
    (b"2\n5 6 7\r\n8 9 10\n1\n11 1 12 13\n1\n14 1\n", 2, 3),
    (b"2\n5 6 7\n8 9 10\r\n1\n11 1 12 13\n1\n14 1\n", 3, 3),
    (b"2\n5 6 7\n8 9 10\n1\r\n11 1 12 13\n1\n14 1\n", 4, 1),
    (b"2\n5 6 7\n8 9 10\n1\n11 1 12 13\r\n1\n14 1\n", 5, 4),
    (b"2\n5 6 7\n8 9 10\n1\n11 1 12 13\n1\r\n14 1\n", 6, 1),
    (b"2\n5 6 7\n8 9 10\n1\n11 1 12 13\n1\n14 1\r\n", 7, 2),
    (b"2\n5 6 7\n8 9 10\n1\n11 1 12 13\n1\n14 1\r", 7, 2),
];

// Two lines that were made one, by a space or by nothing.
const JOINED: [Broken; 11] = [
    (b"2 5 6 7\n8 9 10\n1\n11 1 12 13\n1\n14 1\n", 1, 2),
    (b"25 6 7\n8 9 10\n1\n11 1 12 13\n1\n14 1\n", 1, 2),
    (b"2\n5 6 7 8 9 10\n1\n11 1 12 13\n1\n14 1\n", 2, 4),
    (b"2\n5 6 78 9 10\n1\n11 1 12 13\n1\n14 1\n", 2, 4),
    (b"2\n5 6 7\n8 9 10 1\n11 1 12 13\n1\n14 1\n", 3, 4),
    (b"2\n5 6 7\n8 9 101\n11 1 12 13\n1\n14 1\n", 4, 2),
    (b"2\n5 6 7\n8 9 10\n1 11 1 12 13\n1\n14 1\n", 4, 2),
    (b"2\n5 6 7\n8 9 10\n1\n11 1 12 13 1\n14 1\n", 5, 5),
    (b"2\n5 6 7\n8 9 10\n1\n11 1 12 131\n14 1\n", 6, 2),
    (b"2\n5 6 7\n8 9 10\n1\n11 1 12 13\n1 14 1\n", 6, 2),
    (b"2\n5 6 7\n8 9 10\n1\n11 1 12 13\n114 1\n", 6, 2),
];

// A line feed in the place of a space, or within a number.
const PARTED: [Broken; 8] = [
    (b"2\n5\n6 7\n8 9 10\n1\n11 1 12 13\n1\n14 1\n", 2, 2),
    (b"2\n5 6\n7\n8 9 10\n1\n11 1 12 13\n1\n14 1\n", 2, 3),
    (b"2\n5 6 7\n8 9 1\n0\n1\n11 1 12 13\n1\n14 1\n", 6, 3),
    (b"2\n5 6 7\n8 9 10\n1\n1\n1 1 12 13\n1\n14 1\n", 5, 2),
    (b"2\n5 6 7\n8 9 10\n1\n11 1\n12 13\n1\n14 1\n", 5, 3),
    (b"2\n5 6 7\n8 9 10\n1\n11 1 12 1\n3\n1\n14 1\n", 7, 2),
    (b"2\n5 6 7\n8 9 10\n1\n11 1 12 13\n1\n14\n1\n", 7, 2),
    (b"2\n5 6 7\n8 9 10\n1\n11 1 12 13\n1\n1\n4 1\n", 7, 2),
];

#[test]
fn broken_line_ends(rt: HostRuntime) {
    for table in [
        NEARLY_NOTHING.as_slice(),
        CUT_OFF.as_slice(),
        GOES_ON.as_slice(),
        CARRIAGE_RETURNS.as_slice(),
        JOINED.as_slice(),
        PARTED.as_slice(),
    ] {
        check_broken(&rt, rt.alloc(), table);
    }
}
