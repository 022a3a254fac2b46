// Reading a plan: labs with the terms of their rows, filings and withdrawals, or where the bytes first break the form of a plan.
#![tactic(auto)]

pub mod faults;
mod fields;
mod lines;
pub mod plan;
pub mod reading;
