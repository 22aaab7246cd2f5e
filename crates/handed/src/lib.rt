// The check of a sheet that is handed in (refusal 28), and the sheet's length.

#![tactic(auto)]

pub mod check;
