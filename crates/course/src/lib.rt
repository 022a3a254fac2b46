// What happens at a gate by a plan, tick by tick, and what is printed of it. The pages of specs/ say it; those of proofs/ show that a tick at
// which nothing happens may be left out.
#![tactic(auto)]
