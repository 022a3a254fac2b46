// Tests of the gate: calls made one after another, each with the answer that it gets.
#![tactic(auto)]

#[cfg(test)]
mod opening;
#[cfg(test)]
mod outlooks;
#[cfg(test)]
mod queues;
#[cfg(test)]
mod refusals;
#[cfg(test)]
mod rows;
#[cfg(test)]
mod runs;
#[cfg(test)]
mod steps;
#[cfg(test)]
mod tables;
#[cfg(test)]
mod whose_turn;
#[cfg(test)]
mod worked;
