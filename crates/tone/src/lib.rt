// What a sheet's numbers become: the frequency of a semitone, the seconds of a note, and how many
// samples a time takes.

#![tactic(auto)]

pub mod power;
pub mod time;
mod tuning;
