use budget::row::{BudgetRow, LevelRow};
use mixed::MixedRow;
use std::process::Abort;

// What a row can be told. It is a value and no closure, since rows of several types are told the same.
#[derive(Clone, Copy)]
pub enum Act {
    Restart,
    Rest(u64),
    Ended(u64),
}

// Whether the row grants it, by yes or no as a row does.
pub fn tell<R: BudgetRow>(row: &mut R, act: Act) -> bool {
    match act {
        Act::Restart => {
            row.restart();
            true
        }
        Act::Rest(ticks) => row.rest(ticks),
        Act::Ended(ticks) => row.ended(ticks),
    }
}

// Tells a row each act, which is granted, and then looks at its level and its wake, of which just an able row has none.
fn follow_row<R: LevelRow>(rt: &impl Abort, mut row: R, acts: &[(Act, i64, u64)]) {
    for (act, level, wake) in acts {
        assert!(rt; tell(&mut row, *act));
        assert_eq!(rt; row.level(), *level);
        assert_eq!(rt; row.wake(), *wake);
        assert_eq!(rt; row.able(), *wake == 0);
    }
}

// The same of a row alone and of a mixed row that holds it.
pub fn follow<R: LevelRow + Into<MixedRow>>(rt: &impl Abort, row: R, acts: &[(Act, i64, u64)]) {
    follow_row(rt, row, acts);
    follow_row(rt, row.into(), acts);
}
