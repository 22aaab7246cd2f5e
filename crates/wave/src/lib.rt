// The WAV file of given samples, and its header and samples in a lent buffer.

#![tactic(auto)]

pub mod file;
