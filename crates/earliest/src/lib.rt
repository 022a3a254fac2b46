// The earliest-first container.
#![tactic(auto)]

pub mod heap;
pub mod order;
mod places;
mod sift;
