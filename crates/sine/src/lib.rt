// The turn sine of document 01: a sine by whole numbers, the same on every machine.

#![tactic(auto)]

pub mod lanes;
pub mod quarter;
pub mod turn;
