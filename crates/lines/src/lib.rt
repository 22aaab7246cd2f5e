// Lines, their tokens, and the names in them.

#![tactic(auto)]

pub mod lines;
pub mod names;
