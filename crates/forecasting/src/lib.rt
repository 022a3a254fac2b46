// What the program `forecast` says: one lab's next imports on its row, begun as soon as the row is able.
#![tactic(auto)]

pub mod lines;
pub mod words;
