use budget::row::LevelRow;
use measures::limits::LAST_TICK;
use mixed::MixedRow;
use std::fmt::Debug;
use std::process::Abort;

// Whatever is stored, the row reads as a lawful one.
fn check_lawful<R: LevelRow>(rt: &impl Abort, row: &R) {
    assert!(rt; (1..=999).contains(&row.rate()));
    assert!(rt; row.ceiling() <= 1_000_000_000);
    assert!(rt; row.threshold() <= row.ceiling());
    assert!(rt; row.level() <= row.ceiling() as i64);
    assert!(rt; !row.able() || 0 <= row.level());
    assert_eq!(rt; row.able(), row.wake() == 0);
}

// A count that no row takes is refused, and changes nothing.
fn check_refused<R: LevelRow + PartialEq + Debug>(rt: &impl Abort, row: &R) {
    let mut after = *row;
    assert!(rt; !after.rest(LAST_TICK + 1));
    assert!(rt; !after.rest(u64::MAX));
    assert!(rt; !after.ended(LAST_TICK + 1));
    assert!(rt; !after.ended(u64::MAX));
    if !row.able() {
        assert!(rt; !after.ended(0));
    }
    assert_eq!(rt; after, *row);
}

// Each act that a row grants, up to the last tick, leaves a lawful one.
fn check_granted<R: LevelRow>(rt: &impl Abort, row: &R) {
    for ticks in [0, 1, LAST_TICK] {
        let mut after = *row;
        assert!(rt; after.rest(ticks));
        check_lawful(rt, &after);
        assert_eq!(rt; after.ended(ticks), row.wake() <= ticks);
        check_lawful(rt, &after);
    }
    let mut fresh = *row;
    fresh.restart();
    assert_eq!(rt; fresh.level(), 0);
    assert_eq!(rt; fresh.able(), fresh.threshold() == 0);
}

fn check_alone<R: LevelRow + PartialEq + Debug>(rt: &impl Abort, row: &R) {
    check_lawful(rt, row);
    check_refused(rt, row);
    check_granted(rt, row);
}

// A row alone and a mixed row that holds it.
pub fn check_row<R: LevelRow + PartialEq + Debug + Into<MixedRow>>(rt: &impl Abort, row: R) {
    check_alone(rt, &row);
    check_alone(rt, &row.into());
}
