// From operator lines to an instrument: its commands in their array, and its release.

#![tactic(auto)]

pub mod layout;
