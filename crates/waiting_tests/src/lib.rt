// Tests of the tickets that wait.
#![tactic(auto)]

#[cfg(test)]
mod full;
#[cfg(test)]
mod labs;
#[cfg(test)]
mod lists;
#[cfg(test)]
mod orders;
#[cfg(test)]
mod tickets;
#[cfg(test)]
mod withdrawals;
