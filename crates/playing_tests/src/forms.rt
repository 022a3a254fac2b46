// Texts that break the form of a plan, and texts that are too long for one.
use crate::checks::{Played, check_played};
use playing::play::play;
use std::test::Fail;

const BROKEN: [Played; 17] = [
    (b"", "bad 1 1\n"),
    (b"\n", "bad 1 1\n"),
    (b"0\n0\n0\n", "bad 1 1\n"),
    (b"65\n300 0 0\n0\n0\n", "bad 1 1\n"),
    (b"1\r\n300 0 0\r\n0\r\n0\r\n", "bad 1 1\n"),
    (b"1\n300 0\n0\n0\n", "bad 2 3\n"),
    (b"1\n300 0 0 \n0\n0\n", "bad 2 4\n"),
    (b"1\n300 0 0\n1025\n0\n", "bad 3 1\n"),
    (b"1\n300 0 0\n1\n0 0 3\n0\n", "bad 4 4\n"),
    (b"1\n300 0 0\n1\n0 00 3 1000\n0\n", "bad 4 2\n"),
    (b"1\n300 0 0\n1\n0 0 3 1000000000001\n0\n", "bad 4 4\n"),
    (b"1\n300 0 0\n0\n257\n", "bad 4 1\n"),
    (b"1\n300 0 0\n0\n1\n0 -1\n", "bad 5 2\n"),
    (b"1\n300 0 0\n0\n0", "bad 4 1\n"),
    (b"1\n300 0 0\n0\n0\n\n", "bad 5 1\n"),
    // a break comes before a refusal, and nothing that stands before it is played
    (b"1\n0 0 0\n0\nx\n", "bad 4 1\n"),
    (b"1\n300 0 0\n1\n0 0 3 1000\n1\n0 1", "bad 6 2\n"),
];

#[test]
fn broken(rt: HostRuntime) -> Result<(), Fail> {
    check_played(&rt, rt.alloc(), &BROKEN)
}

// A plan whose last number has so many digits. Beyond 65,536 bytes it is not asked what they hold.
#[test]
fn as_many_bytes_as_may_be(rt: HostRuntime) -> Result<(), Fail> {
    let heap = rt.alloc();
    for (digits, bytes, printed) in [
        (12, 27, "no 5 13\n"),
        (13, 28, "bad 5 2\n"),
        (65_521, 65_536, "bad 5 2\n"),
        (65_522, 65_537, "big\n"),
        (65_523, 65_538, "big\n"),
    ] {
        let mut text = "1\n1 0 0\n0\n1\n1 ".to_string(heap)?;
        text.push_str("9".repeat(heap, digits)?.as_str())?;
        text.push_str("\n")?;
        assert_eq!(rt; text.len(), bytes);
        let found = play(heap, text.as_bytes())?;
        assert_eq!(rt; found.as_str(), printed, "of {bytes} bytes");
    }
    Ok(())
}
