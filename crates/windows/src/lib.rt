// Windows of a sheet's samples as the bytes of its WAV file.

#![tactic(auto)]

pub mod window;
