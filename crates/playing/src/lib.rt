// Playing a plan: what is printed of what happens at a gate from tick 0 to the last tick.
#![tactic(auto)]

mod lines;
pub mod play;
mod stage;
mod start;
