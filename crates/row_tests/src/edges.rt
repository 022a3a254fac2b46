use crate::lawful::check_row;
use budget::row::{BudgetRow, LevelRow};
use measures::division::div_up;
use measures::limits::LAST_TICK;
use measures::refusal::Refusal;
use server::ServerRow;
use spaced::SpacedRow;
use std::process::Abort;

// The number of the refusal, if it is one.
fn refused_with<R: Copy>(made: Result<R, Refusal>) -> Option<u64> {
    made.err().map(|refusal| refusal.number())
}

#[test]
fn terms_out_of_range(rt: HostRuntime) {
    let cases = [
        (1, 0, 0, None),
        (999, 1_000_000_000, 1_000_000_000, None),
        (0, 0, 0, Some(1)),
        (1000, 0, 0, Some(1)),
        (u64::MAX, u64::MAX, u64::MAX, Some(1)),
        (0, 1_000_000_001, 1_000_000_002, Some(1)),
        (1, 1_000_000_001, 1_000_000_002, Some(2)),
        (1, u64::MAX, 0, Some(2)),
        (1, 1_000_000_000, 1_000_000_001, Some(3)),
        (1, 0, 1, Some(3)),
        (999, 5, u64::MAX, Some(3)),
    ];
    for (rate, ceiling, threshold, number) in cases {
        assert_eq!(rt;
            refused_with(ServerRow::new(rate, ceiling, threshold)),
            number
        );
    }
}

#[test]
fn rates_out_of_range(rt: HostRuntime) {
    let cases = [
        (0, Some(1)),
        (1, None),
        (999, None),
        (1000, Some(1)),
        (u64::MAX, Some(1)),
    ];
    for (rate, number) in cases {
        assert_eq!(rt; refused_with(SpacedRow::new(rate)), number);
    }
}

fn check_level(rt: &impl Abort, rate: u64, ceiling: u64, threshold: u64, level: i64) {
    for able in [false, true] {
        check_row(
            rt,
            ServerRow {
                rate,
                ceiling,
                threshold,
                level,
                able,
            },
        );
    }
}

#[test]
fn nonsense_in_a_server_row_is_read_as_lawful(rt: HostRuntime) {
    for rate in [0, 1, 500, 999, 1000, u64::MAX] {
        for ceiling in [0, 3000, 1_000_000_001, u64::MAX] {
            for threshold in [0, 1000, u64::MAX] {
                for level in [i64::MIN, -999_000_000_000_001, -1, 0, 999, 1000, i64::MAX] {
                    check_level(&rt, rate, ceiling, threshold, level);
                }
            }
        }
    }
}

#[test]
fn nonsense_in_a_spaced_row_is_read_as_lawful(rt: HostRuntime) {
    for rate in [0, 1, 500, 999, 1000, u64::MAX] {
        for left in [
            0,
            1,
            LAST_TICK,
            999_000_000_000_000,
            999_000_000_000_001,
            u64::MAX,
        ] {
            check_row(&rt, SpacedRow { rate, left });
        }
    }
}

#[test]
fn the_nearest_lawful_number(rt: HostRuntime) {
    let low = ServerRow {
        rate: 0,
        ceiling: u64::MAX,
        threshold: u64::MAX,
        level: i64::MIN,
        able: true,
    };
    assert_eq!(rt; low.rate(), 1);
    assert_eq!(rt; low.ceiling(), 1_000_000_000);
    assert_eq!(rt; low.threshold(), 1_000_000_000);
    assert_eq!(rt; low.level(), -999_000_000_000_000);
    assert_eq!(rt; low.wake(), 999_001_000_000_000);
    let high = ServerRow {
        rate: u64::MAX,
        ceiling: 7,
        threshold: 8,
        level: i64::MAX,
        able: false,
    };
    assert_eq!(rt; high.rate(), 999);
    assert_eq!(rt; high.threshold(), 7);
    assert_eq!(rt; high.level(), 7);
    assert_eq!(rt; high.wake(), 0);
}

// No more ticks are left than after a run of the last tick's length.
#[test]
fn the_nearest_lawful_ticks_left(rt: HostRuntime) {
    let cases = [
        (0, 1, 999_000_000_000_000, -999_000_000_000_000),
        (1, 1, 999_000_000_000_000, -999_000_000_000_000),
        (300, 300, 2_333_333_333_334, -700_000_000_000_200),
        (999, 999, 1_001_001_002, -1_000_000_000_998),
        (u64::MAX, 999, 1_001_001_002, -1_000_000_000_998),
    ];
    for (stored, rate, wake, level) in cases {
        let row = SpacedRow {
            rate: stored,
            left: u64::MAX,
        };
        assert_eq!(rt; row.rate(), rate);
        assert_eq!(rt; row.wake(), wake);
        assert_eq!(rt; row.level(), level);
    }
}

#[test]
fn division_rounded_up(rt: HostRuntime) {
    let cases = [
        (0, 0, None),
        (7, 0, None),
        (0, 5, Some(0)),
        (1, 5, Some(1)),
        (5, 5, Some(1)),
        (6, 5, Some(2)),
        (u64::MAX, 1, Some(u64::MAX)),
        (u64::MAX, 2, Some(1 << 63)),
        (u64::MAX, u64::MAX, Some(1)),
    ];
    for (a, b, quotient) in cases {
        assert_eq!(rt; div_up(a, b), quotient);
    }
}
