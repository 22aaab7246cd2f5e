// Strict numbers: a sheet may be read so that a number with a tail, as `0,7`, is refused.

#![tactic(auto)]

pub mod mode;
