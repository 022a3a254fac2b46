// The events of a play, earliest first.
#![tactic(auto)]

pub mod agenda;
pub mod event;
mod places;
