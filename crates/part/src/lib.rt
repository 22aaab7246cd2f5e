// The body of a part line (the Rust's `part.rs`): its items, and what each does.

#![tactic(auto)]

mod body;
mod command;
mod note;
mod open_loops;
pub mod part;
pub mod state;
