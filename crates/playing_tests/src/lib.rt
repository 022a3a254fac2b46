// Tests of playing: plans, and texts that are none, each with what a play of it prints.
#![tactic(auto)]

#[cfg(test)]
mod checks;
#[cfg(test)]
mod forms;
#[cfg(test)]
mod last_tick;
#[cfg(test)]
mod refusals;
#[cfg(test)]
mod rows;
#[cfg(test)]
mod runs;
#[cfg(test)]
mod ties;
