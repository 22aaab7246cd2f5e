// The reader of sheets.

#![tactic(auto)]

pub mod ending;
pub mod header;
pub mod parts;
pub mod reader;
pub mod runs;
pub mod sofar;
pub mod steps;
pub mod walk;
