// The form of a WAV file: its header, and one sample as two bytes.

#![tactic(auto)]

pub mod header;
pub mod sample;
pub mod size;
