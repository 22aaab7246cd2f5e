// Operators: a sine with an envelope, at one time of a note or at many side by side.

#![tactic(auto)]

mod lanes;
pub mod operator;
