// The commands of a body that change an environment: octave, value, tempo, amplitude and key.

#![tactic(auto)]

pub mod command;
