// Tests of the earliest-first container, and two callers of it that are proved.
#![tactic(auto)]

mod dated;
#[cfg(test)]
mod hundreds;
pub mod in_order;
mod kept;
#[cfg(test)]
mod mixed;
#[cfg(test)]
mod refusals;
#[cfg(test)]
mod removals;
#[cfg(test)]
mod small;
