// The fields of the requests that programs answer: numbers of four bytes, and floats as bit patterns.

#![tactic(auto)]

pub mod float;
pub mod word;
