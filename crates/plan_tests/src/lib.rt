// Tests of what bytes are read as a plan, and of where others first break its form.
#![tactic(auto)]

#[cfg(test)]
mod checks;
#[cfg(test)]
mod counts;
#[cfg(test)]
mod feeds;
#[cfg(test)]
mod fields;
#[cfg(test)]
mod limits;
#[cfg(test)]
mod lines;
#[cfg(test)]
mod numbers;
#[cfg(test)]
mod pairs;
#[cfg(test)]
mod plans;
