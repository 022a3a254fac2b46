// The import gate: when a lab's next import begins.
#![tactic(auto)]

mod calls;
pub mod gate;
mod outlooks;
mod rows;
mod standing;
