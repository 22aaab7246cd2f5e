// The samples of a sheet, window by window.

#![tactic(auto)]

pub mod window;
