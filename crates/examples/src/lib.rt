// Ten worked cases of the rules, as one table that is proved.
#![tactic(auto)]

pub mod cases;
