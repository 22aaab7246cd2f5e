// The engine as a static library for a C or Rust caller, by numbers and byte slices only; include/cue.h is its page for C.

#![tactic(auto)]

pub mod calls;
pub mod told;
