// The tickets that wait, for each lab in queue order, in memory of their own.
#![tactic(auto)]

mod places;
mod queue;
pub mod queue_order;
pub mod ticket;
pub mod waiting;
