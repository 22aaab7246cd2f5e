// What a part carries along while its lines are read: octave, note value, tempo, amplitude, denominator,
// key and instrument.

#![tactic(auto)]

pub mod environment;
pub mod range;
