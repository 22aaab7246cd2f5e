// Numbers as a sheet writes them: digit runs, decimals, and what the engine works out of them.
// Every reader takes a text and a place in it, and answers with the value and the place after it.

#![tactic(auto)]

pub mod decimal;
pub mod digits;
