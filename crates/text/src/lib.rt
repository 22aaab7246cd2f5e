// Texts: which bytes are blank, and where a run of blanks or of other bytes ends. A place past the
// end of a text has nothing after it.

#![tactic(auto)]

pub mod blanks;
pub mod characters;
pub mod parsed;
pub mod runs;
