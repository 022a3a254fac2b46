use crate::acts::{Act, tell};
use budget::row::{BudgetRow, LevelRow};
use measures::limits::LAST_TICK;
use mixed::MixedRow;
use server::ServerRow;
use spaced::SpacedRow;
use std::process::Abort;
use std::test::Fail;

const ACTS: [Act; 14] = [
    Act::Ended(1),
    Act::Rest(4),
    Act::Rest(LAST_TICK + 1),
    Act::Rest(1),
    Act::Ended(u64::MAX),
    Act::Ended(3),
    Act::Ended(0),
    Act::Rest(2),
    Act::Restart,
    Act::Rest(LAST_TICK),
    Act::Ended(LAST_TICK),
    Act::Ended(LAST_TICK + 1),
    Act::Rest(LAST_TICK),
    Act::Rest(u64::MAX),
];

// A row and a mixed row that holds it answer alike to an act, and to each question after it.
fn check_act<R: LevelRow + Into<MixedRow>>(
    rt: &impl Abort,
    row: &mut R,
    mixed: &mut MixedRow,
    act: Act,
) {
    assert_eq!(rt; tell(mixed, act), tell(row, act));
    assert_eq!(rt; *mixed, (*row).into());
    assert_eq!(rt; mixed.able(), row.able());
    assert_eq!(rt; mixed.wake(), row.wake());
    assert_eq!(rt; mixed.rate(), row.rate());
    assert_eq!(rt; mixed.level(), row.level());
    assert_eq!(rt; mixed.ceiling(), row.ceiling());
    assert_eq!(rt; mixed.threshold(), row.threshold());
}

#[test]
fn a_mixed_table_answers_as_its_rows(rt: HostRuntime) -> Result<(), Fail> {
    let mut server = ServerRow::new(200, 2000, 1000)?;
    let mut spaced = SpacedRow::new(300)?;
    let mut table = [MixedRow::from(server), MixedRow::from(spaced)];
    for act in ACTS {
        check_act(&rt, &mut server, &mut table[0], act);
        check_act(&rt, &mut spaced, &mut table[1], act);
    }
    Ok(())
}
