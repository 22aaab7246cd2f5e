// The WAV file of a sheet: its header, and the whole of it in turn.

#![tactic(auto)]

pub mod file;
pub mod stream;
