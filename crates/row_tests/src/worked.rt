use crate::acts::{Act, follow};
use measures::limits::LAST_TICK;
use server::ServerRow;
use spaced::SpacedRow;
use std::test::Fail;

#[test]
fn two_imports(rt: HostRuntime) -> Result<(), Fail> {
    let acts = [
        (Act::Restart, 0, 5),
        (Act::Rest(4), 800, 1),
        (Act::Rest(1), 1000, 0),
        (Act::Ended(3), -1400, 12),
        (Act::Rest(12), 1000, 0),
        (Act::Ended(1), 200, 0),
    ];
    follow(&rt, ServerRow::new(200, 2000, 1000)?, &acts);
    Ok(())
}

#[test]
fn exactly_nothing_is_enough(rt: HostRuntime) -> Result<(), Fail> {
    let acts = [(Act::Rest(8), 1600, 0), (Act::Ended(2), 0, 0)];
    follow(&rt, ServerRow::new(200, 2000, 1000)?, &acts);
    Ok(())
}

#[test]
fn a_little_debt_is_not(rt: HostRuntime) -> Result<(), Fail> {
    let acts = [(Act::Rest(7), 1400, 0), (Act::Ended(2), -200, 6)];
    follow(&rt, ServerRow::new(200, 2000, 1000)?, &acts);
    Ok(())
}

// From a level of 0 a run of 3 ticks is followed by the full wait, 17 ticks.
#[test]
fn the_full_wait(rt: HostRuntime) -> Result<(), Fail> {
    let acts = [
        (Act::Rest(5), 1000, 0),
        (Act::Ended(1), 200, 0),
        (Act::Rest(3), 800, 0),
        (Act::Ended(1), 0, 0),
        (Act::Ended(3), -2400, 17),
        (Act::Rest(16), 800, 1),
        (Act::Rest(1), 1000, 0),
    ];
    follow(&rt, ServerRow::new(200, 2000, 1000)?, &acts);
    Ok(())
}

// A row on waking has the level that it reached, and not the threshold.
#[test]
fn the_level_on_waking(rt: HostRuntime) -> Result<(), Fail> {
    let acts = [
        (Act::Rest(3), 900, 1),
        (Act::Rest(1), 1200, 0),
        (Act::Rest(9), 2000, 0),
    ];
    follow(&rt, ServerRow::new(300, 2000, 1000)?, &acts);
    Ok(())
}

#[test]
fn a_run_on_a_spaced_row(rt: HostRuntime) -> Result<(), Fail> {
    let acts = [
        (Act::Ended(1), -900, 3),
        (Act::Rest(1), -600, 2),
        (Act::Rest(0), -600, 2),
        (Act::Rest(5), 0, 0),
        (Act::Ended(0), 0, 0),
        (Act::Ended(3), -2100, 7),
        (Act::Restart, 0, 0),
    ];
    follow(&rt, SpacedRow::new(300)?, &acts);
    Ok(())
}

// A pause after a run of the last tick's length is rested in counts of at most the last tick.
#[test]
fn the_longest_runs_on_spaced_rows(rt: HostRuntime) -> Result<(), Fail> {
    let slowest = [
        (
            Act::Ended(LAST_TICK),
            -999_000_000_000_000,
            999_000_000_000_000,
        ),
        (
            Act::Rest(LAST_TICK),
            -998_000_000_000_000,
            998_000_000_000_000,
        ),
    ];
    follow(&rt, SpacedRow::new(1)?, &slowest);
    let quickest = [
        (Act::Ended(LAST_TICK), -1_000_000_000_998, 1_001_001_002),
        (Act::Rest(1_001_001_001), -999, 1),
        (Act::Rest(1), 0, 0),
    ];
    follow(&rt, SpacedRow::new(999)?, &quickest);
    Ok(())
}
