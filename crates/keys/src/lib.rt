// Keys and accidentals, and how a text writes them.

#![tactic(auto)]

pub mod key;
