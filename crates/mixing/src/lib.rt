// The notes of a sheet in their places, mixed into a lent slice.

#![tactic(auto)]

pub mod mixing;
