// Tests of the turn rules: each order is read off by asking about all pairs.
#![tactic(auto)]

#[cfg(test)]
mod differ;
#[cfg(test)]
mod numbers;
#[cfg(test)]
mod orders;
