// The instruments that were read into columns, laid out in the array of a sheet.

#![tactic(auto)]

pub mod instruments;
