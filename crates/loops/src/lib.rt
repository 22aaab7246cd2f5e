// Loops of a part: how often a closed one plays its notes, and the laying down of its further passes.

#![tactic(auto)]

pub mod count;
pub mod repeat;
