// What callers of a gate see: the import that holds the lock, and whose turn it is. The pages of specs/ say what each call does and what is
// guaranteed of every succession of calls; those of proofs/ show it.
#![tactic(auto)]

pub mod import;
pub mod turn;
