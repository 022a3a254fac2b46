// Tests of the rows and of tickets that are listed on them, by worked cases and at the edges of every number.
#![tactic(auto)]

#[cfg(test)]
mod acts;
#[cfg(test)]
mod edges;
#[cfg(test)]
mod lawful;
#[cfg(test)]
mod listings;
#[cfg(test)]
mod tables;
#[cfg(test)]
mod worked;
