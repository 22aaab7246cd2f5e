// Directives (the Rust's `directive.rs`): `#tempo`, `#denom` and `#key` change environments.

#![tactic(auto)]

pub mod directive;
