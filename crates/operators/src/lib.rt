// Operator lines (the Rust's `parser/instrument.rs`): from a line's text to an operator.

#![tactic(auto)]

pub mod line;
