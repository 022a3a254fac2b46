// What the whole product measures by: its limits, lawful counts of ticks, lawful rates, the refusals with their numbers, and division
// rounded up.
#![tactic(auto)]

pub mod division;
pub mod limits;
pub mod rate;
pub mod refusal;
pub mod ticks;
