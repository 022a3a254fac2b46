// The turn rules: who comes first where several labs could begin an import.
#![tactic(auto)]

pub mod circular;
pub mod longest_unserved;
pub mod rule;
