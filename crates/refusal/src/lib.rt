// The line that tells of a refusal, in a lent buffer.

#![tactic(auto)]

pub mod line;
