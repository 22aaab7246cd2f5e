// The tables of macros and of instruments' names (the Rust's `HashMap`s), in order of appearance: names are places in
// the source.

#![tactic(auto)]

pub mod table;
