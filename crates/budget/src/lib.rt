// The interface of a budget row, and what comes next on one row alone.
#![tactic(auto)]

pub mod imports;
pub mod row;
