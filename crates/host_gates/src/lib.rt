// A gate as a host holds it that is not written in this language: by a handle, of which it knows the layout alone; and what it is told.
#![tactic(auto)]

pub mod answers;
pub mod handle;
mod parked;
