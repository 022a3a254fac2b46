// The outlook: when tickets will run, on a row alone and for a lab that is left alone.
#![tactic(auto)]

pub mod entry;
pub mod listing;
