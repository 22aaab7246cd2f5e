// The notes that were read into columns, laid out in the arrays of a sheet.

#![tactic(auto)]

pub mod parts;
pub mod region;
