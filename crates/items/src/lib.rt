// The items of a body as they are written (the Rust's `part.rs`): notes, commands, marks and macro calls.

#![tactic(auto)]

pub mod item;
