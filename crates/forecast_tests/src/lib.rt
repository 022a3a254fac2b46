// Tests of what `forecast` reads, refuses and says.
#![tactic(auto)]

#[cfg(test)]
mod asked;
