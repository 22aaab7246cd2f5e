// Notes as they sound, from the environment of their part (the Rust's `part.rs`).

#![tactic(auto)]

pub mod note;
