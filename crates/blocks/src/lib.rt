// The operator lines below an instrument's header.

#![tactic(auto)]

pub mod block;
