// Notes in columns of plain numbers, and where a part ends.

#![tactic(auto)]

pub mod length;
