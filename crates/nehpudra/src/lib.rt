// The library for hosts in C and Rust: plans are played, and a gate is opened and called on a table of rows that the host keeps. No function
// asks anything of its caller but what its types say.
#![tactic(auto)]

mod gates;
mod plans;
mod rows;
